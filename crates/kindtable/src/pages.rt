// Bodies of the page kind, and of the pair of both kinds.
use crate::bench::{Bench, Misfit, Row, play, play_with};
use kinds::{PageKind, Pair};
use std::io;
use tree::{TreeKind, Unsigned};

type Both = Pair<PageKind, TreeKind<Unsigned>>;

const GOOD: [Row<'static>; 9] = [
    Row("fill 40 with 5", &[2, 40, 5]),
    Row("copy 40 to 41", &[3, 40, 41, 1]),
    Row("fill 40 with 7", &[2, 40, 7]),
    Row("patch 40 at 0", &[1, 40, 0, 1, 2, 3]),
    Row("patch 40 at 223", &[1, 40, 223, 9]),
    Row("swap 40 and 41", &[4, 40, 41]),
    Row("swap 41 and 40", &[4, 41, 40]),
    Row("copy 40..43 to 60..63", &[3, 40, 60, 4]),
    Row("copy 60..63 to 0..3", &[3, 60, 0, 4]),
];

const BAD: [Row<'static>; 11] = [
    Row("empty body", &[]),
    Row("tag 5", &[5, 1, 1]),
    Row("patch of no bytes", &[1, 40, 0]),
    Row("patch past the end", &[1, 40, 223, 9, 9]),
    Row("patch of page 64", &[1, 64, 0, 9]),
    Row("fill of four bytes", &[2, 40, 5, 0]),
    Row("copy of no pages", &[3, 1, 9, 0]),
    Row("copy of five pages", &[3, 1, 9, 5]),
    Row("copy that overlaps", &[3, 10, 12, 3]),
    Row("copy past page 63", &[3, 10, 61, 4]),
    Row("swap of one page", &[4, 7, 7]),
];

const THERE_AND_BACK: [Row<'static>; 3] = [
    Row("first order, fill 40", &[2, 40, 5]),
    Row("copy 40 to 41", &[3, 40, 41, 1]),
    Row("copy 41 to 40", &[3, 41, 40, 1]),
];

const BACK_AND_THERE: [Row<'static>; 3] = [
    Row("second order, fill 40", &[2, 40, 5]),
    Row("copy 41 to 40", &[3, 41, 40, 1]),
    Row("copy 40 to 41", &[3, 40, 41, 1]),
];

const PAIRED: [Row<'static>; 7] = [
    Row("pair, fill 40", &[1, 2, 40, 5]),
    Row(
        "pair, insert into leaf 0",
        &[2, 1, 0, 8, 0, 0, 0, 80, 0, 0, 0],
    ),
    Row("pair, grow of a small leaf", &[2, 5]),
    Row("pair, bad page body", &[1, 2, 64, 5]),
    Row("pair, bad tree body", &[2, 5, 5]),
    Row("pair, kind 3", &[3, 2, 40, 5]),
    Row("pair, empty body", &[]),
];

const MISFITS: [Misfit<'static>; 3] = [
    Misfit(Row("fill, reply of 223", &[2, 40, 5]), 0, 223),
    Misfit(Row("copy, one page for two", &[3, 40, 50, 2]), 224, 448),
    Misfit(Row("bad body, bad lengths", &[9]), 1, 1),
];

const PAIR_MISFITS: [Misfit<'static>; 1] = [Misfit(
    Row("pair, fill with a short reply", &[1, 2, 40, 5]),
    0,
    0,
)];

// Each operation of the page kind, and what is refused.
pub fn table(rt: &HostRuntime) -> io::Result<()> {
    let mut b = Bench::new();
    play::<PageKind>(rt, &mut b, &GOOD)?;
    play_with::<PageKind>(rt, &mut b, &BAD, &MISFITS)?;
    // The two orders of a copy there and a copy back.
    for order in [THERE_AND_BACK, BACK_AND_THERE] {
        play::<PageKind>(rt, &mut Bench::new(), &order)?;
    }
    Ok(())
}

// Bodies of the pair: byte 0 chooses the kind of the rest.
pub fn pairs(rt: &HostRuntime) -> io::Result<()> {
    play_with::<Both>(rt, &mut Bench::new(), &PAIRED, &PAIR_MISFITS)
}
