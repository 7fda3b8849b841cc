// Which of the groups that may go is flushed, at each flush that leaves the choice.
use crate::script::LOWEST;
use arrayvec::ArrayVec;
use kinds::PageKind;
use media::Medium;
use sets::lowest;
use stores::PageStore;
use volume::Up;

// The most choices of a life.
const MOST: usize = 16;

// The choices of one order, as far as a life has made them: the lowest page of each group, if there was one.
#[derive(Drop)]
pub struct Plan {
    order: usize,
    choices: ArrayVec<Option<u32>, MOST>,
}

// Whether a page is the lowest of a group that has none directly before it.
fn is_ready<L: Medium, S: PageStore>(up: &Up<PageKind, L, S>, page: u32) -> bool {
    up.group(page).is_ok_and(|(group, before)| group != 0 && before == 0 && lowest(group) == page)
}

// How many groups may go.
fn count<L: Medium, S: PageStore>(up: &Up<PageKind, L, S>) -> usize {
    LOWEST.iter().filter(|page| is_ready(up, **page)).count()
}

// The lowest page of the n-th of them.
fn nth<L: Medium, S: PageStore>(up: &Up<PageKind, L, S>, n: usize) -> Option<u32> {
    LOWEST
        .iter()
        .copied()
        .filter(|page| is_ready(up, *page))
        .nth(n)
}

impl Plan {
    pub fn new(order: usize) -> Plan {
        Plan {
            order,
            choices: ArrayVec::new(),
        }
    }

    pub fn order(&self) -> usize {
        self.order
    }

    pub fn choices(&self) -> &[Option<u32>] {
        self.choices.as_slice()
    }

    // The page to flush, where `left` is what the choices of the day so far have left of the order's number; and what is left of it now.
    // A choice that an earlier life has made stays. No page where there is no room for the choice.
    pub fn choose<L: Medium, S: PageStore>(
        &mut self,
        up: &Up<PageKind, L, S>,
        turn: usize,
        left: usize,
    ) -> (Option<u32>, usize) {
        if let Some(page) = self.choices.get(turn) {
            return (*page, left);
        }
        let n = count(up).max(1);
        let page = nth(up, left % n);
        let kept = self.choices.try_push(page);
        (kept.ok().and(page), left / n)
    }
}
