// The scripted life of a volume: three days, each from a mount to a stop.
use faults::Fault;
use std::fmt;

#[derive(Clone, Copy)]
pub enum Call {
    // run a body; whether it is accepted, or the fault that refuses it
    Run(&'static [u8], Result<(), Fault>),
    Force,
    // flush a page; whether that is accepted, or the fault
    Flush(u32, Result<(), Fault>),
    // flush one of the groups that have no group directly before them
    FlushReady,
    Trim,
}

// The name of a call.
impl fmt::Display for Call {
    fn fmt<W: fmt::Write>(&self, f: &mut fmt::Formatter<W>) -> fmt::Result {
        f.pad(match self {
            Call::Run(_, _) => "run",
            Call::Force => "force",
            Call::Flush(_, _) => "flush",
            Call::FlushReady => "flush of a choice",
            Call::Trim => "trim",
        })
    }
}

// The bench run's operations, a swap with what comes before it, flushes that are refused, and three groups, of which one has to go
// before another. One record is dropped in the end. The operations of all days bear the numbers 120, 121 and so on.
const FIRST_DAY: [Call; 21] = [
    Call::Run(&[2, 40, 5], Ok(())),
    Call::Run(&[3, 40, 41, 1], Ok(())),
    Call::Run(&[2, 40, 7], Ok(())),
    Call::Run(&[3, 5, 7, 3], Err(Fault::BodyRefused(1))),
    Call::Flush(40, Err(Fault::GroupBefore(41))),
    Call::Flush(41, Err(Fault::RecordWaiting(121))),
    Call::Force,
    Call::Flush(40, Err(Fault::GroupBefore(41))),
    Call::Run(&[2, 50, 9], Ok(())),
    Call::Run(&[1, 51, 10, 1, 2, 3, 4], Ok(())),
    Call::Run(&[4, 50, 51], Ok(())),
    Call::Force,
    Call::FlushReady,
    Call::FlushReady,
    Call::FlushReady,
    Call::Flush(50, Err(Fault::PageClean(50))),
    Call::Trim,
    Call::Run(&[1, 40, 220, 8, 9, 10, 11], Ok(())),
    Call::Run(&[2, 3, 77], Ok(())),
    Call::Force,
    Call::Run(&[2, 3, 78], Ok(())),
];

// A copy of four pages, and a group that joins three pages and stays dirty over the stop.
const SECOND_DAY: [Call; 25] = [
    Call::Trim,
    Call::Run(&[2, 10, 1], Ok(())),
    Call::Run(&[1, 11, 0, 5, 6, 7], Ok(())),
    Call::Run(&[2, 12, 3], Ok(())),
    Call::Run(&[1, 13, 223, 9], Ok(())),
    Call::Force,
    Call::Run(&[3, 10, 20, 4], Ok(())),
    Call::Run(&[2, 10, 2], Ok(())),
    Call::Flush(10, Err(Fault::GroupBefore(20))),
    Call::Flush(20, Err(Fault::RecordWaiting(132))),
    Call::Force,
    Call::Flush(12, Ok(())),
    Call::Flush(11, Ok(())),
    Call::Flush(13, Ok(())),
    Call::Flush(3, Ok(())),
    Call::FlushReady,
    Call::FlushReady,
    Call::FlushReady,
    Call::Run(&[4, 40, 20], Ok(())),
    Call::Trim,
    Call::Force,
    Call::Run(&[3, 40, 41, 1], Ok(())),
    Call::Run(&[3, 41, 40, 1], Ok(())),
    Call::Run(&[2, 41, 6], Ok(())),
    Call::Force,
];

// Three groups without an order, with trims between them; then a page that is flushed, patched and flushed again.
const THIRD_DAY: [Call; 23] = [
    Call::Flush(41, Ok(())),
    Call::Run(&[2, 60, 1], Ok(())),
    Call::Run(&[1, 3, 100, 1, 2], Ok(())),
    Call::Run(&[4, 62, 63], Ok(())),
    Call::Force,
    Call::FlushReady,
    Call::Trim,
    Call::FlushReady,
    Call::Trim,
    Call::FlushReady,
    Call::Trim,
    Call::Run(&[2, 60, 2], Ok(())),
    Call::Run(&[3, 60, 61, 1], Ok(())),
    Call::Force,
    Call::Run(&[2, 61, 4], Ok(())),
    Call::Flush(61, Err(Fault::RecordWaiting(143))),
    Call::Flush(60, Ok(())),
    Call::Run(&[1, 60, 0, 12, 13], Ok(())),
    Call::Flush(60, Err(Fault::GroupBefore(61))),
    Call::Force,
    Call::Flush(61, Ok(())),
    Call::Flush(60, Ok(())),
    Call::Trim,
];

// The most calls of a day.
pub const LONGEST: usize = 32;

// The calls of all days.
pub const DAYS: [&'static [Call]; 3] = [&FIRST_DAY, &SECOND_DAY, &THIRD_DAY];

// The calls after a recovery: page 30 is touched by no other.
pub const AFTER: [Call; 5] = [
    Call::Run(&[1, 41, 7, 1, 2, 3], Ok(())),
    Call::Run(&[2, 30, 200], Ok(())),
    Call::Force,
    Call::Flush(30, Ok(())),
    Call::Trim,
];

// The pages that may be the lowest of a group.
pub const LOWEST: [u32; 10] = [3, 10, 20, 40, 41, 50, 51, 60, 61, 62];
