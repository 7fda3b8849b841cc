// From a body to an operation on pages.
ghost use Rattle.std.specs.Prelude.{◌≡◌};
ghost use Rattle.kinds.specs.Actions.{patch_of, fill_from, copy_of, swap_from};
ghost use Rattle.kinds.specs.Actions.{parse as parse_of};
ghost use Rattle.kinds.specs.Views.{viewed};

use crate::buffers::CONTENTS;
use crate::kind::Kind;
use crate::op::Op;
use crate::page::PageKind;

const PAGES: u32 = 64;

fn patch_of<'a>(page: u8, offset: u8, bytes: &'a [u8]) -> Option<Op<'a>>
    ensures { viewed result ≡ patch_of page offset bytes.now }
{
    let full = bytes.len() > 0 && bytes.len() <= CONTENTS;
    let fits = full && usize::from(offset) + bytes.len() <= CONTENTS;
    (u32::from(page) < PAGES && fits).then_some(Op::Patch {
        page,
        offset,
        bytes,
    })
}

fn fill_of<'a>(page: u8, byte: u8) -> Option<Op<'a>>
    ensures { viewed result ≡ fill_from page byte }
{
    (u32::from(page) < PAGES).then_some(Op::Fill { page, byte })
}

fn copy_of<'a>(from: u8, to: u8, count: u8) -> Option<Op<'a>>
    ensures { viewed result ≡ copy_of from to count }
{
    let pages = u32::from(count);
    let from_end = u32::from(from) + pages;
    let to_end = u32::from(to) + pages;
    let apart = from_end <= u32::from(to) || to_end <= u32::from(from);
    let some = pages >= 1 && pages <= PageKind::LIMIT;
    (some && from_end <= PAGES && to_end <= PAGES && apart).then_some(Op::Copy { from, to, count })
}

fn swap_of<'a>(a: u8, b: u8) -> Option<Op<'a>>
    ensures { viewed result ≡ swap_from a b }
{
    (u32::from(a) < PAGES && u32::from(b) < PAGES && a != b).then_some(Op::Swap { a, b })
}

impl<'a> Op<'a> {
    // The operation that a body says; none where the body is not of the form.
    #[tactic(auto, using(std::proofs::lemmas::Bool::Decides::nat_tests, std::proofs::lemmas::List::take_rest), unfolding(crate::specs::Actions::parse))]
    pub fn parse(body: &'a [u8]) -> Option<Op<'a>>
        ensures { viewed result ≡ parse_of body.now }
    {
        match body {
            [1, page, offset, bytes @ ..] => patch_of(*page, *offset, bytes),
            [2, page, byte] => fill_of(*page, *byte),
            [3, from, to, count] => copy_of(*from, *to, *count),
            [4, a, b] => swap_of(*a, *b),
            _ => None,
        }
    }
}
