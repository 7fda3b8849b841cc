// What the listed operations are, and how they come and go.
ghost use Rattle.std.specs.Prelude.{◌≡◌, [], length, is_ok};
ghost use Rattle.tables.specs.DirtyOps.{dirty, room, pushed, kept, first_number, highest_among, HighestIn};

use crate::Full;
use crate::dirty_ops::{DirtyOps, walks};
use arrayvec::ArrayVec;
use graph::Op;

impl DirtyOps {
    // No operation is listed.
    pub fn none() -> DirtyOps
        ensures { dirty result ≡ [] }
    {
        DirtyOps {
            ops: ArrayVec::new(),
        }
    }

    // The listed operations.
    pub fn list(&self) -> &[Op]
        ensures { result.now ≡ dirty self.now }
    {
        self.ops.as_slice()
    }

    // How many operations are listed.
    pub fn len(&self) -> usize
        ensures { result ≡ length (dirty self.now) }
    {
        self.ops.len()
    }

    // Lists an operation behind the others; refuses it, and it is not listed, where 128 are listed already.
    pub fn push(&mut self, o: Op) -> Result<(), Full>
        ensures fits { is_ok result ≡ room (dirty self.old) }
        ensures after { dirty self.new ≡ pushed (dirty self.old) o }
    {
        self.ops.try_push(o).map_err(|_| Full)
    }

    // Strikes the operations that write a page of the set; the others stay, in their order.
    pub fn remove(&mut self, set: u64)
        ensures { dirty self.new ≡ kept set (dirty self.old) }
    {
        self.ops.retain(|o| !walks::writes_into(*o, set));
    }

    // The number of the first listed operation; `next` where none is listed.
    pub fn lowest(&self, next: u32) -> u32
        ensures { result ≡ first_number (dirty self.now) next }
    {
        self.ops.first().map_or(next, |o| o.number)
    }

    // The highest number, at or above `from`, of a listed operation that writes a page of the set.
    pub fn highest_in(&self, set: u64, from: u32) -> Option<u32>
        ensures value { result ≡ highest_among set from (dirty self.now) }
        ensures best { HighestIn set from (dirty self.now) result }
    {
        walks::highest(self.list(), set, from)
    }
}
