// The page kind: operations on whole pages.
ghost use Rattle.std.specs.Prelude.{refl};
ghost use Rattle.kinds.specs.Actions.{page_meaning};
ghost use Rattle.kinds.specs.ActionLaws.{page-lawful};

use crate::buffers::sized;
use crate::kind::Kind;
use crate::op::Op;
use crate::refusal::Refusal;

pub struct PageKind;

impl Kind for PageKind {
    const LIMIT: u32 = 4;

    ghost LIMIT = { 4 };

    ghost meaning = { page_meaning };

    ghost limit_is = { refl };

    ghost lawful = { page-lawful };

    // Kept: the tree kind has the same few lines, and a trait for them with its laws would be longer.
    fn scope(body: &[u8]) -> Result<(u64, u64), Refusal> {
        Ok(Op::parse(body).ok_or(Refusal::Malformed)?.sets())
    }

    fn effect(body: &[u8], old: &[u8], new: &mut [u8]) -> Result<(), Refusal> {
        let op = Op::parse(body).ok_or(Refusal::Malformed)?;
        sized(op.sets(), old.len(), new.len())?;
        op.write(old, new);
        Ok(())
    }
}
