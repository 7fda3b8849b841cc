// What a mount makes in memory.
ghost use Rattle.std.specs.Prelude.{◌≤◌, length};
ghost use Rattle.tables.specs.DirtyOps.{dirty as dirty_of};

use crate::pages::WorkingPages;
use tables::DirtyOps;

// The pages as the records so far leave them, and the operations redone.
#[derive(Drop)]
pub(crate) struct Rebuilt {
    pub(crate) pages: WorkingPages,
    pub(crate) dirty: DirtyOps,
    ghost few: { length (dirty_of dirty) ≤ 128 },
}

#[derive(Drop)]
pub(crate) struct Recovered {
    pub(crate) rebuilt: Rebuilt,
    pub(crate) first: u32,
    pub(crate) next: u32,
}
