// The faults of the engine: one list for all its calls.
#![tactic(auto)]

mod fault;

pub use fault::Fault;
