// The groups of a small example, and, given a number of rounds, what the write graph of 128 operations costs to compute.
#![tactic(auto)]

mod cost;
mod example;

use std::num::NonZeroU32;
use std::{env, io};

// The number of rounds that the first argument gives; none where it gives none, or 0.
fn rounds(rt: &HostRuntime) -> io::Result<Option<NonZeroU32>> {
    let word = env::args(rt)?.nth(1);
    Ok(word.and_then(|word| word.parse::<NonZeroU32>().ok()))
}

fn main(rt: HostRuntime) -> io::Result<()> {
    match rounds(&rt)? {
        Some(rounds) => cost::measure(&rt, rounds),
        None => {
            println!(rt; "the cost of a call is measured only when a number of rounds is given")?;
            example::show(&rt)
        }
    }
}
