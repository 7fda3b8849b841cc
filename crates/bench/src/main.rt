// The bench run of a volume on two memory chips, once on the journal store and once on the shadow store.
#![tactic(auto)]

mod chips;
mod story;
mod tell;

use std::io;
use stores::{Journal, Shadow};

fn main(rt: HostRuntime) -> io::Result<()> {
    chips::run::<Journal>(&rt, "journal store")?;
    println!(rt; "")?;
    chips::run::<Shadow>(&rt, "shadow store")
}
