// What an operation on pages writes.
ghost use Rattle.std.specs.Prelude.{◌≡◌, ◌+◌, ◌≤◌, ◌++◌, length, take, drop};
ghost use Rattle.kinds.specs.Actions.{change, Ready};
ghost use Rattle.kinds.specs.Views.{view};

use crate::buffers::CONTENTS;
use crate::op::Op;

// Lays bytes over one page's contents.
fn lay(offset: usize, bytes: &[u8], old: &[u8], new: &mut [u8])
    requires { (length new.old ≡ length old.now) × (offset + length bytes.now ≤ length old.now) }
    ensures { new.new ≡ take offset old.now ++ (bytes.now ++ drop (offset + length bytes.now) old.now) }
{
    new.copy_from_slice(old);
    new[offset..offset + bytes.len()].copy_from_slice(bytes);
}

// Puts the contents of two pages in the other order.
fn exchange(old: &[u8], new: &mut [u8])
    requires { (length old.now ≡ 448) × (length new.old ≡ 448) }
    ensures { new.new ≡ drop 224 old.now ++ take 224 old.now }
{
    new[0..CONTENTS].copy_from_slice(&old[CONTENTS..2 * CONTENTS]);
    new[CONTENTS..2 * CONTENTS].copy_from_slice(&old[0..CONTENTS]);
}

impl Op<'_> {
    // Writes the written pages' contents from those of the pages read.
    pub(crate) fn write(&self, old: &[u8], new: &mut [u8])
        requires { Ready (view self.now) (length old.now) (length new.old) }
        ensures { new.new ≡ change (view self.now) old.now }
    {
        match self {
            Op::Patch { offset, bytes, .. } => lay(usize::from(*offset), bytes, old, new),
            Op::Fill { byte, .. } => new.fill(*byte),
            Op::Copy { .. } => new.copy_from_slice(old),
            Op::Swap { .. } => exchange(old, new),
        }
    }
}
