// Block media: the memory medium with its fuse, and partitions.
#![tactic(auto)]

mod fate;
mod fuse;
mod medium;
mod memory;
mod partition;

pub use fate::Fate;
pub use fuse::{Fuse, Left};
pub use medium::{BLOCK, Medium};
pub use memory::MemoryMedium;
pub use partition::Partition;
