// The dirty operations, in the order in which they were listed: 128 at most.
ghost use Rattle.std.specs.Prelude.{◌≤◌};
ghost use Rattle.arrayvec.specs.ArrayVec.{array_vec_len};

mod table;
mod walks;

use arrayvec::ArrayVec;
use graph::Op;

#[derive(Drop)]
pub struct DirtyOps {
    ops: ArrayVec<Op, 128>,
    ghost few: { array_vec_len ops ≤ 128 },
}
