// From a body to a step, and the pages that it touches.
ghost use Rattle.std.specs.Prelude.{◌≡◌, ◌&&◌, nat_le};
ghost use Rattle.tree.specs.Steps.{insert_from, page_pair, when, parse as parse_of, sets as sets_of};
ghost use Rattle.tree.specs.declared.step.Step.TheVariants.{Cut as CutStep};

use crate::step::Step;
use kinds::{both, only};
use sets::Number;

const LAST_PAGE: u8 = 26;

// Whether these are two different pages of the tree, the second one not the root's.
fn two_pages(p: u8, q: u8) -> bool
    ensures { result ≡ page_pair p q }
{
    p <= LAST_PAGE && q >= 1 && q <= LAST_PAGE && p != q
}

fn insert_of(page: u8, word: &[u8]) -> Option<Step>
    ensures { result ≡ insert_from page word.now }
{
    let word: &[u8; 8] = word.as_array()?;
    (page <= LAST_PAGE).then_some(Step::Insert {
        page,
        key: u32::read_at(word, 0),
        value: u32::read_at(word, 4),
    })
}

fn cut_of(leaf: u8, upper: u8) -> Option<Step>
    ensures { result ≡ when (nat_le 1 leaf && page_pair leaf upper) (CutStep leaf upper) }
{
    (leaf >= 1 && two_pages(leaf, upper)).then_some(Step::Cut { leaf, upper })
}

impl Step {
    // The step that a body says; none where the body is not of the form.
    #[tactic(auto, using(std::proofs::lemmas::Bool::Decides::nat_tests, std::proofs::lemmas::List::take_rest), unfolding(crate::specs::Steps::parse))]
    pub fn parse(body: &[u8]) -> Option<Step>
        ensures { result ≡ parse_of body.now }
    {
        match *body {
            [1, page, ref word @ ..] => insert_of(page, word),
            [2, from, to] => two_pages(from, to).then_some(Step::Lower { from, to }),
            [3, from, to] => two_pages(from, to).then_some(Step::Upper { from, to }),
            [4, leaf, upper] => cut_of(leaf, upper),
            [5] => Some(Step::Grow),
            _ => None,
        }
    }

    // The pages read, and the pages written.
    pub fn sets(&self) -> (u64, u64)
        ensures { result ≡ sets_of self.now }
    {
        match self {
            Step::Insert { page, .. } => (only(*page), only(*page)),
            Step::Lower { from, to } => (only(*from), only(*to)),
            Step::Upper { from, to } => (only(*from), only(*to)),
            Step::Cut { leaf, .. } => (both(0, *leaf), both(0, *leaf)),
            Step::Grow => (only(0), only(0)),
        }
    }
}
