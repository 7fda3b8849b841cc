// A call of a volume.
#[derive(Clone, Copy)]
pub enum Call<'a> {
    // of an up volume: run the operation of a body
    Run(&'a [u8]),
    Force,
    // flush the group of a page
    Flush(u32),
    Trim,
    Stop,
    // of a down volume
    Mount,
}
