// The lines that are printed.
use crate::chip::Cut;
use crate::survey::{Outcome, Seen};
use std::io;

// A line for a cut.
pub fn line(rt: &HostRuntime, cut: &Cut, seen: &Seen) -> io::Result<()> {
    let write = cut.write.saturating_add(1);
    let left = cut.left;
    let Seen { block, pages, .. } = seen;
    let others = if seen.others {
        "others untouched"
    } else {
        "OTHERS CHANGED"
    };
    println!(rt; "  write {write:>2}, block {block:>3}, left {left}: {pages}, {others}")
}

// How many cuts came out so.
fn count(all: &[Seen], outcome: Outcome) -> usize {
    all.iter().filter(|seen| seen.pages == outcome).count()
}

pub fn closing(rt: &HostRuntime, store: &str, all: &[Seen]) -> io::Result<()> {
    let cuts = all.len();
    let old = count(all, Outcome::AllOld);
    let new = count(all, Outcome::AllNew);
    let torn = count(all, Outcome::Torn);
    let whole = all.iter().filter(|seen| seen.others).count();
    println!(rt;
        "{store}: {cuts} cuts, {old} all old, {new} all new, {torn} torn, others untouched in {whole}"
    )
}
