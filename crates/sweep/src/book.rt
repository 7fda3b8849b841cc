// The book of a life: the operations that were accepted, in order, and how many of them are logged.
use crate::model::Model;
use arrayvec::ArrayVec;
use media::Left;

// The number of the first operation: the log's blocks come round at operation 128.
pub const FIRST: u32 = 120;

// The most operations of a life.
const MOST: usize = 64;

#[derive(Clone, Copy, Default)]
struct Operation {
    number: u32,
    body: &'static [u8],
}

impl Operation {
    // The block of the log that its record lies in.
    fn block(&self) -> usize {
        (self.number % 128) as usize + 1
    }
}

#[derive(Drop)]
pub struct Book {
    operations: ArrayVec<Operation, MOST>,
    logged: usize,
    acknowledged: usize,
}

impl Book {
    pub fn new() -> Book {
        Book {
            operations: ArrayVec::new(),
            logged: 0,
            acknowledged: 0,
        }
    }

    // The number that the next operation will bear.
    pub fn next(&self) -> u32 {
        self.operations
            .last()
            .map_or(FIRST, |last| last.number.saturating_add(1))
    }

    // A run was accepted. Says whether there was room for its operation.
    pub fn accept(&mut self, body: &'static [u8]) -> bool {
        let number = self.next();
        self.operations.try_push(Operation { number, body }).is_ok()
    }

    // A force was accepted: all operations are logged, and acknowledged.
    pub fn force(&mut self) {
        self.logged = self.operations.len();
        self.acknowledged = self.logged;
    }

    // A force died at a block: the operations before the first, not logged yet, whose record lies there are logged, and that one exactly
    // if the block is new. Says whether there is such an operation.
    pub fn cut_force(&mut self, lost: usize, left: Left) -> bool {
        let dying = self
            .operations
            .iter()
            .skip(self.logged)
            .position(|operation| operation.block() == lost);
        if let Some(passed) = dying {
            self.logged = self
                .logged
                .saturating_add(passed)
                .saturating_add(usize::from(left == Left::New));
        }
        dying.is_some()
    }

    // A mount keeps the operations that are logged. Says whether all that were acknowledged are among them.
    pub fn mount(&mut self) -> bool {
        self.operations.truncate(self.logged);
        self.acknowledged <= self.operations.len()
    }

    // The pages that the operations give.
    pub fn pages(&self) -> Model {
        let mut model = Model::blank();
        for Operation { number, body } in &self.operations {
            model.apply(*number, body);
        }
        model
    }
}
