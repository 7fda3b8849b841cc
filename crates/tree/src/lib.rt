// The tree kind: a tree of one root over leaves, whose pages hold keys and values.
#![tactic(auto)]

mod entries;
mod forms;
mod kind;
mod laws;
mod order;
mod parse;
mod step;
mod steps;
mod unfit;
mod write;

pub use entries::search;
pub use kind::TreeKind;
pub use laws::{entries_read_back, puts_are_updates};
pub use order::{KeyOrder, Unsigned};
pub use step::Step;
