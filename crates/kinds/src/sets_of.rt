// The pages that an operation on pages touches.
ghost use Rattle.std.specs.Prelude.{◌≡◌};
ghost use Rattle.kinds.specs.Actions.{sets as sets_of};
ghost use Rattle.kinds.specs.PageSets.{only as only_of, both as both_of, run as run_of};
ghost use Rattle.kinds.specs.PageSetLaws.{with_page};
ghost use Rattle.kinds.specs.Views.{view};

use crate::op::Op;
use sets::{single, union};

// The set of one page.
pub fn only(page: u8) -> u64
    ensures { result ≡ only_of page }
{
    single(u32::from(page))
}

// The set of two pages.
pub fn both(a: u8, b: u8) -> u64
    ensures { result ≡ both_of a b }
{
    union(single(u32::from(a)), single(u32::from(b)))
}

// A set and one page more.
fn with(set: u64, page: u32) -> u64
    ensures { result ≡ with_page set page }
{
    union(set, single(page))
}

// The set of the `count` pages from page `from` on.
pub fn run(from: u8, count: u8) -> u64
    ensures { result ≡ run_of from count }
{
    let start = u32::from(from);
    (start..start + u32::from(count)).fold(0, with)
}

impl Op<'_> {
    // The pages read, and the pages written.
    pub fn sets(&self) -> (u64, u64)
        ensures { result ≡ sets_of (view self.now) }
    {
        match self {
            Op::Patch { page, .. } => (only(*page), only(*page)),
            Op::Fill { page, .. } => (0, only(*page)),
            Op::Copy { from, to, count } => (run(*from, *count), run(*to, *count)),
            Op::Swap { a, b } => (both(*a, *b), both(*a, *b)),
        }
    }
}
