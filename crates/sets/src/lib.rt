// Sets of pages on u64, pages by number, and numbers in bytes. Callers see members and bytes, never bits.
#![tactic(auto)]

mod page;
mod pages;
mod words;

pub use page::Page;
pub use pages::{common, contains, lowest, meet, next_page, single, size, toggle, union, without};
pub use words::Number;
