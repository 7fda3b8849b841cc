// What becomes of a block write that a live medium carries out.
ghost use Rattle.std.specs.Prelude.{◌≡◌};
ghost use Rattle.media.specs.Media.{dies as dies_by, lands as lands_by};

// Kept: an Option of what is left in the block would say the same, and name none of the three outcomes.
#[derive(Clone, Copy, PartialEq, Eq, Debug)]
pub enum Fate {
    // the block is new and the medium lives on
    Lives,
    // the power fails and the block stays old
    DiesOld,
    // the power fails and the block is new
    DiesNew,
}

impl Fate {
    // Whether the power fails in the write.
    pub fn dies(self) -> bool
        ensures { result ≡ dies_by self }
    {
        matches!(self, Fate::DiesOld | Fate::DiesNew)
    }

    // Whether the block becomes new.
    pub fn lands(self) -> bool
        ensures { result ≡ lands_by self }
    {
        matches!(self, Fate::Lives | Fate::DiesNew)
    }
}
