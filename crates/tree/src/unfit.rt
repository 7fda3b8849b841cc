// Why a step can not be taken.
ghost use Rattle.std.specs.Prelude.{◌≡◌};
ghost use Rattle.kinds.specs.declared.refusal.Refusal.TheVariants.{Own};
ghost use Rattle.tree.specs.Unfits.{code_of};

use kinds::Refusal;

#[derive(Clone, Copy, PartialEq, Eq, Debug)]
pub(crate) enum Unfit {
    // A page has not the form that the step needs.
    NotOfForm,
    // A leaf has no room for another key.
    Full,
}

impl Unfit {
    // The tree's own code.
    pub(crate) fn code(self) -> u8
        ensures { result ≡ code_of self }
    {
        match self {
            Unfit::NotOfForm => 3,
            Unfit::Full => 4,
        }
    }
}

impl From<Unfit> for Refusal {
    ghost from_gives = { λ unfit refusal. refusal ≡ Own (code_of unfit) };

    fn from(unfit: Unfit) -> Refusal {
        Refusal::Own(unfit.code())
    }
}
