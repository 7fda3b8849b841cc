// Cuts the power at every block write of an install, on both stores, and looks at what is left.
#![tactic(auto)]

mod chip;
mod report;
mod survey;

use arrayvec::ArrayVec;
use chip::Cut;
use media::Left;
use std::io;
use stores::{Journal, Shadow, Way};
use survey::Seen;

// The writes of an install are counted by trying: a fuse that does not blow ends the round.
const MOST_WRITES: u64 = 64;

// Each write is cut twice.
const MOST_CUTS: usize = 128;

// The store that is cut in two rounds.
const JOURNAL: &'static str = "journal store";

// Every cut of one install; the install before it may itself have been cut, as `earlier` says.
fn round<W: Way>(rt: &HostRuntime, store: &str, earlier: Option<Cut>) -> io::Result<()> {
    let mut all: ArrayVec<Seen, MOST_CUTS> = ArrayVec::new();
    for write in 0..MOST_WRITES {
        for left in [Left::Old, Left::New] {
            let cut = Cut { write, left };
            let Some(seen) = chip::cut_once::<W>(earlier, cut) else {
                return report::closing(rt, store, all.as_slice());
            };
            report::line(rt, &cut, &seen)?;
            let _ = all.try_push(seen);
        }
    }
    report::closing(rt, store, all.as_slice())
}

// Every cut of an install on a new store, under its name.
fn headed_round<W: Way>(rt: &HostRuntime, store: &str) -> io::Result<()> {
    println!(rt; "")?;
    println!(rt; "{store}")?;
    round::<W>(rt, store, None)
}

fn main(rt: HostRuntime) -> io::Result<()> {
    println!(rt; "power cut at each block write of an install of pages 3, 40 and 63")?;
    headed_round::<Journal>(&rt, JOURNAL)?;
    headed_round::<Shadow>(&rt, "shadow store")?;
    println!(rt; "")?;
    println!(rt; "journal store, cut before at write 6, so that the next install settles first")?;
    let earlier = Cut {
        write: 5,
        left: Left::Old,
    };
    round::<Journal>(&rt, JOURNAL, Some(earlier))
}
