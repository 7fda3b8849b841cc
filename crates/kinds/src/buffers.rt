// The lengths of buffers.
ghost use Rattle.std.specs.Prelude.{◌≡◌, ◌*◌, ◌&&◌, ◌==◌, cond, Ok, Err};
ghost use Rattle.sets.specs.Sets.{size as size_of};

use crate::refusal::Refusal;
use sets::size;

// How many bytes of a page an operation sees.
pub const CONTENTS: usize = 224;

// Refuses two buffers that are not as long as the contents of the pages read and of the pages written.
pub fn sized(sets: (u64, u64), old: usize, new: usize) -> Result<(), Refusal>
    ensures { result ≡ cond (old == 224 * size_of sets.0 && new == 224 * size_of sets.1) (Ok tt) (Err Refusal.Misfit) }
{
    let (reads, writes) = sets;
    if old == CONTENTS * size(reads) as usize && new == CONTENTS * size(writes) as usize {
        Ok(())
    } else {
        Err(Refusal::Misfit)
    }
}
