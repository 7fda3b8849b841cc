// Why a kind refuses.
ghost use Rattle.std.specs.Prelude.{◌≡◌};
ghost use Rattle.kinds.specs.Refusals.{code_of};

#[derive(Clone, Copy, PartialEq, Eq, Debug)]
pub enum Refusal {
    // The body is not of the form.
    Malformed,
    // A buffer is not as long as the pages' contents.
    Misfit,
    // A code of the kind's own.
    Own(u8),
}

impl Refusal {
    // The number of a refusal.
    pub fn code(self) -> u8
        ensures { result ≡ code_of self }
    {
        match self {
            Refusal::Malformed => 1,
            Refusal::Misfit => 2,
            Refusal::Own(code) => code,
        }
    }
}
