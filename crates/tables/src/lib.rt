// The two fixed tables of a volume: the log blocks that wait to be written, and the dirty operations.
#![tactic(auto)]

// Kept: both tables have none, list, len and push; each is one line over ArrayVec, and a type between would only rename its methods.
mod dirty_ops;
mod full;
mod waiting;

pub use dirty_ops::DirtyOps;
pub use full::Full;
pub use waiting::Waiting;
