// Two memory chips of 130 blocks with a volume on them: its log and its store stand on blocks 1 to 129.
use crate::lives::{Course, live};
use crate::plan::Plan;
use media::{Left, MemoryMedium, Partition};
use std::fmt;
use stores::{MediumStore, Way};
use volume::Down;

const CHIP: usize = 33280;

const BLOCKS: usize = 129;

#[derive(Clone, Copy, PartialEq, Eq)]
pub enum Chip {
    Log,
    Pages,
}

impl fmt::Display for Chip {
    fn fmt<W: fmt::Write>(&self, f: &mut fmt::Formatter<W>) -> fmt::Result {
        f.write_str(match self {
            Chip::Log => "log",
            Chip::Pages => "store",
        })
    }
}

// The power fails on a chip after so many writes, and leaves the block of the next old or new.
#[derive(Clone, Copy)]
pub struct Cut {
    pub chip: Chip,
    pub write: u64,
    pub left: Left,
}

impl fmt::Display for Cut {
    fn fmt<W: fmt::Write>(&self, f: &mut fmt::Formatter<W>) -> fmt::Result {
        let Cut { chip, left, .. } = self;
        let write = self.write.saturating_add(1);
        write!(f, "{chip} chip cut at write {write}, left {left}")
    }
}

// A partition of a chip, with a fuse if it is the one to be cut.
// Kept: powercut and bench put partitions on chips too, each with fuses of its own; a crate for these lines would be longer than they are.
fn part<'a>(bytes: &'a mut [u8], chip: Chip, cut: Option<Cut>) -> Partition<MemoryMedium<'a>> {
    let mut medium = MemoryMedium::new(bytes);
    if let Some(cut) = cut.filter(|cut| cut.chip == chip) {
        medium.set_fuse(cut.write, cut.left);
    }
    Partition::new(medium, 1, BLOCKS)
}

// A life on new chips; none where the power fails in the format.
pub fn run<W: Way>(cut: Option<Cut>, plan: &mut Plan) -> Option<Course> {
    let mut log = [0u8; CHIP];
    let mut pages = [0u8; CHIP];
    let log = part(&mut log, Chip::Log, cut);
    let pages = part(&mut pages, Chip::Pages, cut);
    let store: MediumStore<_, W> = MediumStore::new(pages);
    let left = cut.map_or(Left::Old, |cut| cut.left);
    live(Down::new(log, store), plan, left)
}
