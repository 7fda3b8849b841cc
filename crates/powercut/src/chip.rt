// A memory chip with a store on a partition of it, and an install that is cut.
use crate::survey::{Seen, survey};
use media::{BLOCK, Left, MemoryMedium, Partition};
use stores::{MediumStore, PageStore, Way};

// A chip of 130 blocks; the store stands on 129 of them, from block 1 on.
const CHIP: usize = 33280;

const IMAGES: usize = 16384;

// Pages 3, 40 and 63.
const PAGES: u64 = 1 << 3 | 1 << 40 | 1 << 63;

// The power fails after so many writes, and leaves the block of the next old or new.
#[derive(Clone, Copy)]
pub struct Cut {
    pub write: u64,
    pub left: Left,
}

// All 64 images of a version: its number, bytes that tell page and version, and rubbish where zeros belong.
fn images(version: u8) -> [u8; IMAGES] {
    let mut all = [0u8; IMAGES];
    for (i, byte) in all.iter_mut().enumerate() {
        *byte = written(version, i / BLOCK, i % BLOCK);
    }
    all
}

// A byte of a page's image in a version, as it is handed to an install.
fn written(version: u8, page: usize, at: usize) -> u8 {
    if at < 228 {
        stored(version, page, at)
    } else {
        238
    }
}

// The same as it is stored; version 0 is blank.
pub fn stored(version: u8, page: usize, at: usize) -> u8 {
    match at {
        0 => version,
        4..=227 if version > 0 => { ((page % 64 * 5 + at + usize::from(version) * 60) % 256) as u8 }
        _ => 0,
    }
}

// A medium over the chip, with a fuse if one is wanted.
fn medium<'a>(bytes: &'a mut [u8], fuse: Option<Cut>) -> Partition<MemoryMedium<'a>> {
    let mut medium = MemoryMedium::new(bytes);
    if let Some(cut) = fuse {
        medium.set_fuse(cut.write, cut.left);
    }
    Partition::new(medium, 1, 129)
}

// Installs the version after `old`. Where the power fails: what the store shows once it is powered on again.
fn install<W: Way>(bytes: &mut [u8], fuse: Option<Cut>, old: u8) -> Option<Seen> {
    let mut store: MediumStore<_, W> = MediumStore::new(medium(bytes, fuse));
    let new = old.saturating_add(1);
    let fault = store.install(PAGES, &images(new)).err()?;
    Some(survey(&mut store, PAGES, fault.place(), old, new))
}

// On a new chip: installs version 1; then version 2, cut as `earlier` says, if it does; then one version more, cut as `cut` says.
// None where that fuse did not blow.
pub fn cut_once<W: Way>(earlier: Option<Cut>, cut: Cut) -> Option<Seen> {
    let mut bytes = [0u8; CHIP];
    let _ = install::<W>(&mut bytes, None, 0);
    let old = match earlier {
        None => 1,
        Some(_) => {
            let _ = install::<W>(&mut bytes, earlier, 1);
            2
        }
    };
    install::<W>(&mut bytes, Some(cut), old)
}
