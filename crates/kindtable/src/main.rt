// Runs bodies, good and bad, of the page kind, the tree kind and their pair on 64 pages, and prints for each the pages read and
// written as sets, and a digest of what was written or the code.
#![tactic(auto)]

mod bench;
mod pages;
mod trees;

use std::io;

fn main(rt: HostRuntime) -> io::Result<()> {
    pages::table(&rt)?;
    trees::table(&rt)?;
    pages::pairs(&rt)
}
