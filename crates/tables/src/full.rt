// Why a table takes nothing more: all its places are taken.
#[derive(Clone, Copy, Debug, PartialEq, Eq)]
pub struct Full;
