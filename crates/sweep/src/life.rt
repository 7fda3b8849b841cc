// A life: what its calls answer, written down in the book, and what does not agree with it.
use crate::book::Book;
use crate::model::Model;
use crate::plan::Plan;
use crate::script::Call;
use faults::Fault;
use kinds::PageKind;
use media::{BLOCK, Left, Medium};
use std::fmt;
use std::ops::ControlFlow;
use stores::PageStore;
use volume::Up;

// Answers that the book does not expect, mounts that were refused, pages that are not as the book says.
#[derive(Clone, Copy, Default, PartialEq, Eq)]
pub struct Trouble {
    odd: usize,
    refused: usize,
    wrong: usize,
}

impl fmt::Display for Trouble {
    fn fmt<W: fmt::Write>(&self, f: &mut fmt::Formatter<W>) -> fmt::Result {
        let Trouble {
            odd,
            refused,
            wrong,
        } = self;
        write!(f, "{wrong} pages, {refused} mounts refused, {odd} answers")
    }
}

#[derive(Drop)]
pub struct Life<'a> {
    book: Book,
    plan: &'a mut Plan,
    // what the dying write leaves in its block
    left: Left,
    // the flushes so far that left a choice, and what this day's have left of the order's number
    turn: usize,
    number: usize,
    trouble: Trouble,
}

// A life goes on after an answer, unless the power failed.
fn flow(answer: Result<u32, Fault>) -> ControlFlow<()> {
    match answer {
        Err(Fault::PowerLost(_)) => ControlFlow::Break(()),
        _ => ControlFlow::Continue(()),
    }
}

// Whether a page is not as the book says.
fn differs<L: Medium, S: PageStore>(up: &Up<PageKind, L, S>, model: &Model, page: u32) -> bool {
    let mut image = [0u8; BLOCK];
    up.page(page, &mut image).is_err() || !model.same(page, &image)
}

impl<'a> Life<'a> {
    pub fn new(plan: &'a mut Plan, left: Left) -> Life<'a> {
        Life {
            book: Book::new(),
            plan,
            left,
            turn: 0,
            number: 0,
            trouble: Trouble::default(),
        }
    }

    pub fn trouble(&self) -> Trouble {
        self.trouble
    }

    fn expect(&mut self, good: bool) {
        self.trouble.odd = self.trouble.odd.saturating_add(usize::from(!good));
    }

    // Compares all 64 pages with those that the book gives.
    fn compare<L: Medium, S: PageStore>(&mut self, up: &Up<PageKind, L, S>) {
        let model = self.book.pages();
        let wrong = (0..64u32).filter(|page| differs(up, &model, *page)).count();
        self.trouble.wrong = self.trouble.wrong.saturating_add(wrong);
    }

    // A volume was mounted.
    pub fn mounted<L: Medium, S: PageStore>(&mut self, up: &Up<PageKind, L, S>) {
        let kept = self.book.mount();
        self.expect(kept);
        let refused = usize::from(up.fault().is_some());
        self.trouble.refused = self.trouble.refused.saturating_add(refused);
        self.compare(up);
        self.number = self.plan.order();
    }

    // A run was answered; the life breaks off if the power failed. So it does with the others.
    fn ran(
        &mut self,
        body: &'static [u8],
        expected: Result<(), Fault>,
        answer: Result<u32, Fault>,
    ) -> ControlFlow<()> {
        let next = self.book.next();
        self.expect(answer == expected.map(|()| next));
        if answer.is_ok() {
            let kept = self.book.accept(body);
            self.expect(kept);
        }
        flow(answer)
    }

    fn forced(&mut self, answer: Result<u32, Fault>) -> ControlFlow<()> {
        match answer {
            Ok(number) => {
                let expected = number == self.book.next().saturating_sub(1);
                self.expect(expected);
                self.book.force();
            }
            Err(Fault::PowerLost(block)) => {
                let found = self.book.cut_force(block, self.left);
                self.expect(found);
            }
            Err(_) => self.expect(false),
        }
        flow(answer)
    }

    // A flush or a trim, which change nothing in the book.
    fn answered(
        &mut self,
        expected: Result<(), Fault>,
        answer: Result<u32, Fault>,
    ) -> ControlFlow<()> {
        let flow = flow(answer);
        self.expect(flow.is_break() || answer.map(|_| ()) == expected);
        flow
    }

    fn flush_ready<L: Medium, S: PageStore>(
        &mut self,
        up: &mut Up<PageKind, L, S>,
    ) -> ControlFlow<()> {
        let (page, number) = self.plan.choose(up, self.turn, self.number);
        self.turn = self.turn.saturating_add(1);
        self.number = number;
        match page {
            Some(page) => self.answered(Ok(()), up.flush(page)),
            None => {
                self.expect(false);
                ControlFlow::Continue(())
            }
        }
    }

    // Makes a call; the life breaks off if the power failed in it.
    pub fn make<L: Medium, S: PageStore>(
        &mut self,
        up: &mut Up<PageKind, L, S>,
        call: Call,
    ) -> ControlFlow<()> {
        match call {
            Call::Run(body, expected) => self.ran(body, expected, up.run(body)),
            Call::Force => self.forced(up.force()),
            Call::Flush(page, expected) => self.answered(expected, up.flush(page)),
            Call::FlushReady => self.flush_ready(up),
            Call::Trim => self.answered(Ok(()), up.trim()),
        }
    }
}
