// What a store shows after a cut: which pages are old, which are new.
use crate::chip::stored;
use media::BLOCK;
use sets::contains;
use std::fmt;
use stores::PageStore;

// What became of the pages of a set.
#[derive(Clone, Copy, Default, PartialEq, Eq)]
pub enum Outcome {
    #[default]
    AllOld,
    AllNew,
    Torn,
}

impl fmt::Display for Outcome {
    fn fmt<W: fmt::Write>(&self, f: &mut fmt::Formatter<W>) -> fmt::Result {
        f.write_str(match self {
            Outcome::AllOld => "all old",
            Outcome::AllNew => "all new",
            Outcome::Torn => "TORN",
        })
    }
}

#[derive(Clone, Copy, Default)]
pub struct Seen {
    // the block at which the power failed
    pub block: u64,
    pub pages: Outcome,
    // whether all other pages are as they were
    pub others: bool,
}

// Whether a store shows a page in a version.
fn shows<S: PageStore>(store: &S, version: u8, page: u32) -> bool {
    let mut image = [0u8; BLOCK];
    store.read(page, &mut image).is_ok()
        && image
            .iter()
            .enumerate()
            .all(|(at, byte)| *byte == stored(version, page as usize, at))
}

// Whether all pages of a set are in a version.
fn all_in<S: PageStore>(store: &S, set: u64, version: u8) -> bool {
    (0..64u32)
        .filter(|page| contains(set, *page))
        .all(|page| shows(store, version, page))
}

// Powers a store on and reads all 64 pages.
pub fn survey<S: PageStore>(store: &mut S, set: u64, block: u64, old: u8, new: u8) -> Seen {
    store.power_on();
    let pages = if all_in(store, set, old) {
        Outcome::AllOld
    } else if all_in(store, set, new) {
        Outcome::AllNew
    } else {
        Outcome::Torn
    };
    let others = all_in(store, !set, 0);
    Seen {
        block,
        pages,
        others,
    }
}
