// Kinds of operation: what the body of an operation says, which pages it reads and writes, and what it writes.
#![tactic(auto)]

mod buffers;
mod kind;
mod op;
mod page;
mod pair;
mod parse;
mod refusal;
mod sets_of;
mod write;

pub use buffers::{CONTENTS, sized};
pub use kind::Kind;
pub use op::Op;
pub use page::PageKind;
pub use pair::Pair;
pub use refusal::Refusal;
pub use sets_of::{both, only};
