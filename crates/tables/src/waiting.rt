// Blocks that wait to be written to the log, oldest first: sixteen at most.
ghost use Rattle.std.specs.Prelude.{◌≤◌};
ghost use Rattle.arrayvec.specs.ArrayVec.{array_vec_len};

mod queue;

use arrayvec::ArrayVec;

#[derive(Drop)]
pub struct Waiting {
    blocks: ArrayVec<[u8; 256], 16>,
    ghost few: { array_vec_len blocks ≤ 16 },
}
