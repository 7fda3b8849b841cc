// Two memory chips of 130 blocks with a volume on them: its log and its store stand on blocks 1 to 129.
use crate::story;
use media::{MemoryMedium, Partition};
use std::io;
use stores::{MediumStore, Way};
use volume::Down;

const CHIP: usize = 33280;

const BLOCKS: usize = 129;

// The bench run on new chips, under the name of the store.
pub fn run<W: Way>(rt: &HostRuntime, name: &str) -> io::Result<()> {
    let mut log = [0u8; CHIP];
    let mut pages = [0u8; CHIP];
    let log = Partition::new(MemoryMedium::new(&mut log), 1, BLOCKS);
    let pages = Partition::new(MemoryMedium::new(&mut pages), 1, BLOCKS);
    let store: MediumStore<_, W> = MediumStore::new(pages);
    println!(rt; "{name}")?;
    story::all(rt, Down::new(log, store))
}
