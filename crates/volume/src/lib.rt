// The volume: working pages and waiting records over a log and a page store, down or up.
#![tactic(auto)]

mod assembly;
mod down;
mod ends;
mod flush;
mod force;
mod format;
mod log_reader;
mod log_reading;
mod looks;
mod mount;
mod operation;
mod pages;
mod perform;
mod recover;
mod recovered;
mod redoing;
mod run;
mod store_reader;
mod trim;
mod up;
mod working;

pub use down::Down;
pub use up::Up;
