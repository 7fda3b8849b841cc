// A kind of operation.
ghost use Rattle.std.specs.Prelude.{◌≡◌, ℕ, length};
ghost use Rattle.kinds.specs.Kinds.{Meaning, Lawful, reply};
ghost use Rattle.kinds.specs.Kinds.{answer as answer_of, filled as filled_by};
ghost use Rattle.kinds.specs.Refusals.{named};

use crate::refusal::Refusal;

// Names a limit of 1 to 4 pages, and gives two functions on any bodies. A kind is a type, and has no values.
pub trait Kind {
    // No set of an operation is larger.
    const LIMIT: u32;

    ghost LIMIT: { ℕ };

    ghost meaning: { Meaning };

    // The pages that an operation reads and the pages that it writes; refuses a body that is not of the form.
    fn scope(body: &[u8]) -> Result<(u64, u64), Refusal>
        ensures { result ≡ named (meaning.scope body.now) };

    // Writes into `new` the written pages' contents, rising, 224 bytes each, from `old`, the read pages' contents likewise. Refuses
    // a body that is not of the form, else a buffer of another length, or for a reason of the kind's own, and leaves `new` then.
    fn effect(body: &[u8], old: &[u8], new: &mut [u8]) -> Result<(), Refusal>
        ensures answer { result ≡ named (answer_of (reply meaning body.now old.now (length new.old))) }
        ensures buffer { new.new ≡ filled_by (reply meaning body.now old.now (length new.old)) new.old };

    ghost limit_is: { LIMIT ≡ meaning.limit };

    ghost lawful: { Lawful meaning };
}
