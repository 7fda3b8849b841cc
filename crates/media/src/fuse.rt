// The fuse of a memory medium: after so many writes the next one dies.
ghost use Rattle.std.specs.Prelude.{◌≡◌, Some};
ghost use Rattle.media.specs.Memory.{fate_of, burnt as burnt_by, renewed as renewed_by, left_text};

use crate::fate::Fate;
use std::fmt;

// What the write at which the fuse blows leaves in its block.
#[derive(Clone, Copy, PartialEq, Eq, Debug)]
pub enum Left {
    Old,
    New,
}

impl fmt::Display for Left {
    ghost output = { λ left. Some (left_text left) };

    fn fmt<W: fmt::Write>(&self, f: &mut fmt::Formatter<W>) -> fmt::Result {
        match self {
            Left::Old => write!(f, "old"),
            Left::New => write!(f, "new"),
        }
    }
}

#[derive(Clone, Copy, PartialEq, Eq, Debug)]
pub enum Fuse {
    Absent,
    // so many writes pass, and the next dies
    Armed(u64, Left),
    // it has fired, and stays until power-on
    Blown,
}

impl Fuse {
    // The fate of the next write.
    pub fn fate(self) -> Fate
        ensures { result ≡ fate_of self }
    {
        match self {
            Fuse::Armed(0, Left::Old) => Fate::DiesOld,
            Fuse::Armed(0, Left::New) => Fate::DiesNew,
            _ => Fate::Lives,
        }
    }

    // The fuse after a write that was carried out.
    pub fn burnt(self) -> Fuse
        ensures { result ≡ burnt_by self }
    {
        match self {
            Fuse::Armed(0, _) => Fuse::Blown,
            Fuse::Armed(n, left) => Fuse::Armed(n - 1, left),
            other => other,
        }
    }

    // The fuse after power-on.
    pub fn renewed(self) -> Fuse
        ensures { result ≡ renewed_by self }
    {
        match self {
            Fuse::Blown => Fuse::Absent,
            other => other,
        }
    }
}
