// Page stores: 64 images, installed all or none.
#![tactic(auto)]

mod blocks;
mod journal;
mod on_medium;
mod shadow;
mod store;

pub use journal::{Journal, JournalStore};
pub use on_medium::{MediumStore, Way};
pub use shadow::{Shadow, ShadowStore};
pub use store::PageStore;
