// The blocks of the log: records of operations, and the header.
#![tactic(auto)]

mod header;
mod misfit;
mod record;
mod zeros;

pub use header::{header_block, read_header, write_header};
pub use misfit::Misfit;
pub use record::Record;

const BLOCK: usize = 256;
