// The calls of the bench run, each printed with its answer.
use crate::tell::{self, Figure};
use kinds::PageKind;
use lives::{AnyVolume, Call, Refused, replay};
use media::Medium;
use std::io;
use stores::PageStore;
use volume::{Down, Up};

// A call, its name, and what its answer is.
#[derive(Clone, Copy)]
struct Step(Call<'static>, &'static str, &'static str);

// Fill 40 with 5, copy 40 to 41, fill 40 with 7, force; page 41 must be flushed first; stop and mount.
const STEPS: [Step; 10] = [
    Step(Call::Mount, "mount", "records redone:"),
    Step(Call::Run(&[2, 40, 5]), "fill page 40 with 5", "operation"),
    Step(
        Call::Run(&[3, 40, 41, 1]),
        "copy page 40 to page 41",
        "operation",
    ),
    Step(Call::Run(&[2, 40, 7]), "fill page 40 with 7", "operation"),
    Step(Call::Force, "force", "in the log up to operation"),
    Step(Call::Flush(40), "flush page 40", "pages installed:"),
    Step(Call::Flush(41), "flush page 41", "pages installed:"),
    Step(Call::Trim, "trim", "the log starts at operation"),
    Step(Call::Stop, "stop", "records dropped:"),
    Step(Call::Mount, "mount", "records redone:"),
];

// The sixteenth waiting record passes, the seventeenth is refused.
fn waiting<L: Medium, S: PageStore>(
    rt: &HostRuntime,
    up: &mut Up<PageKind, L, S>,
) -> io::Result<()> {
    for _ in 0..15u32 {
        let _ = up.run(&[2, 40, 9]);
    }
    for call in ["a sixteenth record waits", "a seventeenth"] {
        let answer = up.run(&[2, 40, 9]);
        tell::answer(rt, call, answer.map(|n| Figure("operation", u64::from(n))))?;
    }
    Ok(())
}

fn looks<L: Medium, S: PageStore>(rt: &HostRuntime, up: &mut Up<PageKind, L, S>) -> io::Result<()> {
    tell::groups(rt, 40, up.group(40))?;
    tell::page(rt, up, 40)?;
    tell::page(rt, up, 41)?;
    waiting(rt, up)
}

pub fn all<L: Medium + Drop, S: PageStore + Drop>(
    rt: &HostRuntime,
    down: Down<PageKind, L, S>,
) -> io::Result<()> {
    let mut answers = [Err(Refused::OutOfTurn); STEPS.len()];
    let calls = STEPS.map(|Step(call, _, _)| call);
    let (volume, made) = replay(down, 1, &calls, &mut answers);
    tell::answer(rt, "format, first number 1", made.map(|_| "done"))?;
    for (Step(_, call, what), answer) in STEPS.iter().zip(&answers) {
        tell::answer(rt, call, answer.map(|n| Figure(what, n)))?;
    }
    match volume {
        AnyVolume::Up(mut up) => looks(rt, &mut up),
        AnyVolume::Down(_) => println!(rt; "  the volume is down"),
    }
}
