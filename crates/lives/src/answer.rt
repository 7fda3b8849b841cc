// The answer to a call.
ghost use Rattle.std.specs.Prelude.{◌≡◌, Some};
ghost use Rattle.lives.specs.declared.answer.Refused.TheVariants.{Fault as by_fault};
ghost use Rattle.lives.specs.Answers.{text};

use faults::Fault;
use std::fmt;

// Why a call is not done.
#[derive(Clone, Copy, Debug)]
pub enum Refused {
    // the volume is down and the call is of an up one, or the other way round: nothing was done
    OutOfTurn,
    // the volume refuses it with this fault
    Fault(Fault),
}

// What a call answers: a number or a count, or why it is not done.
pub type Answer = Result<u64, Refused>;

impl From<Fault> for Refused {
    ghost from_gives = { λ fault refused. refused ≡ by_fault fault };

    fn from(fault: Fault) -> Refused {
        Refused::Fault(fault)
    }
}

impl fmt::Display for Refused {
    ghost output = { λ refused. Some (text refused) };

    fn fmt<W: fmt::Write>(&self, f: &mut fmt::Formatter<W>) -> fmt::Result {
        match self {
            Refused::OutOfTurn => write!(f, "out of turn"),
            Refused::Fault(fault) => write!(f, "refused, {fault}"),
        }
    }
}
