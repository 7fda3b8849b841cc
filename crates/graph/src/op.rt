// A dirty operation: its number, the pages it reads, and the pages it writes.
#[derive(Clone, Copy, Default)]
pub struct Op {
    pub number: u32,
    pub reads: u64,
    pub writes: u64,
}
