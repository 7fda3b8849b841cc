// The time of a call, over many calls, on two lists of 128 operations. Each round changes one operation, so that no work is
// shared between calls. The pages in the answers are counted, to show what was computed.
ghost use Rattle.std.specs.Prelude.{◌<◌};

use graph::Op;
use std::num::NonZeroU32;
use std::time::{Duration, Instant};
use std::{array, io};

// Reads two pages and writes two: all pages are in one group.
fn tangled(i: u32) -> Op {
    let p = i % 64;
    Op {
        number: i,
        reads: sets::union(sets::single(p), sets::single((p + 17) % 64)),
        writes: sets::union(sets::single((p * 5) % 64), sets::single((p * 5 + 1) % 64)),
    }
}

// Reads page 63 and writes another, or writes page 63: each page is a group of its own, and all others come directly
// before page 63.
fn ray(i: u32) -> Op {
    let p = i % 64;
    Op {
        number: i,
        reads: sets::without(sets::single(63), sets::single(p)),
        writes: sets::single(p),
    }
}

// The operations that are numbered below 128.
fn operations<F: Fn(u32) -> Op>(operation: F) -> [Op; 128]
    requires { F.IsAlwaysCallable operation }
{
    array::from_fn(
        |i: usize| -> Op
            requires within { i < 128 }
            requires callable { F.IsAlwaysCallable operation }
        { operation(i as u32) },
    )
}

// Operation `round % 128` reads the pages that it writes as well, or no longer.
fn change(ops: &mut [Op; 128], round: u32) {
    let o = &mut ops[(round % 128) as usize];
    o.reads = sets::toggle(o.reads, o.writes);
}

// The pages in the answers of a call, over all rounds.
fn pages_answered<F: Fn(&[Op]) -> u64>(mut ops: [Op; 128], rounds: u32, call: F) -> u64
    requires { F.IsAlwaysCallable call }
{
    let mut pages = 0u64;
    for round in 0..rounds {
        change(&mut ops, round);
        pages = pages.saturating_add(sets::size(call(&ops)) as u64);
    }
    pages
}

// Microseconds for each round, to a tenth.
fn line(
    rt: &HostRuntime,
    call: &str,
    rounds: NonZeroU32,
    all: Duration,
    pages: u64,
) -> io::Result<()> {
    let rounds = rounds.get();
    let tenths = all.as_nanos() / rounds as u128 / 100;
    let whole = tenths / 10;
    let rest = tenths % 10;
    let each = pages / rounds as u64;
    println!(rt; "{call}: {whole}.{rest} microseconds a call, {each} pages in an answer")
}

fn time<F: Fn(&[Op]) -> u64>(
    rt: &HostRuntime,
    name: &str,
    ops: [Op; 128],
    rounds: NonZeroU32,
    call: F,
) -> io::Result<()>
    requires { F.IsAlwaysCallable call }
{
    let start = Instant::now(rt)?;
    let pages = pages_answered(ops, rounds.get(), call);
    line(rt, name, rounds, start.elapsed(rt)?, pages)
}

fn both_calls(rt: &HostRuntime, ops: [Op; 128], rounds: NonZeroU32) -> io::Result<()> {
    time(rt, "  group", ops, rounds, |ops| graph::group(ops, 63))?;
    time(rt, "  before", ops, rounds, |ops| graph::before(ops, 63))
}

pub(crate) fn measure(rt: &HostRuntime, rounds: NonZeroU32) -> io::Result<()> {
    println!(rt; "128 operations, all pages in one group")?;
    both_calls(rt, operations(tangled), rounds)?;
    println!(rt; "128 operations, 64 groups, 63 of them directly before one")?;
    both_calls(rt, operations(ray), rounds)
}
