// The write graph, computed from the dirty operations.
#![tactic(auto)]

mod arrows;
mod closure;
mod groups;
mod listing;
mod op;
mod rows;
#[cfg(test)]
mod tests;

pub use groups::{before, dirty, group, group_count, lowest_pages};
pub use listing::{listed_graph, listed_install, listed_run};
pub use op::Op;
