// An operation made, and done on the working pages.
ghost use Rattle.std.specs.Prelude.{◌≡◌, ℕ, ◌*◌, ◌≤◌, length, Ok, Err, MatchResult};
ghost use Rattle.sets.specs.Sets.{size as size_of};
ghost use Rattle.kinds.specs.Kinds.{answer as answer_of};
ghost use Rattle.kinds.specs.Refusals.{code_of, coded};
ghost use Rattle.logblocks.specs.Blocks.{block_of};
ghost use Rattle.logblocks.specs.Views.{view};
ghost use Rattle.volume.specs.Working.{image_at};
ghost use Rattle.volume.specs.Performing.{outcome, performed};

use crate::operation::{Admitted, Operation};
use crate::pages::{FOUR, WorkingPages};
use graph::Op;
use kinds::{CONTENTS, Kind, Refusal};
use logblocks::Record;
use sets::size;
use std::marker::PhantomData;

impl<'a, K: Kind> Operation<'a, K> {
    // The operation that a body is, or the code with which the kind refuses it.
    pub(crate) fn of(number: u32, body: &'a [u8]) -> Result<Operation<'a, K>, Refusal>
        ensures { MatchResult result (λ o. (o.record.number ≡ number) × (o.record.body.now ≡ body.now)) (λ refusal. K.Kind.meaning.scope body.now ≡ Err (code_of refusal)) }
    {
        let (reads, writes) = K::scope(body)?;
        Ok(Operation {
            record: Record {
                number,
                reads,
                writes,
                body,
            },
            kind: PhantomData,
        })
    }

    // The operation as the table of dirty operations has it.
    pub(crate) fn op(&self) -> Op
        ensures { result ≡ record { number = self.now.record.number; reads = self.now.record.reads; writes = self.now.record.writes } }
    {
        Op {
            number: self.record.number,
            reads: self.record.reads,
            writes: self.record.writes,
        }
    }

    // Does the operation, with a buffer for the new contents that is as long as they are.
    fn perform_with(&self, pages: &mut WorkingPages, new: &mut [u8]) -> Result<(), Refusal>
        requires { length new.old ≡ 224 * size_of self.now.record.writes }
        ensures answer { coded result ≡ answer_of (outcome K.Kind.meaning self.now.record.body.now self.now.record.reads (image_at pages.old.images)) }
        ensures images { (q : ℕ) → image_at pages.new.images q ≡ performed (outcome K.Kind.meaning self.now.record.body.now self.now.record.reads (image_at pages.old.images)) self.now.record.writes self.now.record.number (image_at pages.old.images) q }
    {
        let mut old = [0u8; FOUR];
        let used = pages.gather(self.record.reads, &mut old);
        K::effect(self.record.body, &old[0..used], new)?;
        pages.scatter(self.record.writes, self.record.number, new);
        Ok(())
    }

    // Does the operation; the pages that it writes take its number.
    pub(crate) fn perform(&self, pages: &mut WorkingPages) -> Result<(), Refusal>
        ensures answer { coded result ≡ answer_of (outcome K.Kind.meaning self.now.record.body.now self.now.record.reads (image_at pages.old.images)) }
        ensures images { (q : ℕ) → image_at pages.new.images q ≡ performed (outcome K.Kind.meaning self.now.record.body.now self.now.record.reads (image_at pages.old.images)) self.now.record.writes self.now.record.number (image_at pages.old.images) q }
    {
        let mut new = [0u8; FOUR];
        let wanted = size(self.record.writes) as usize * CONTENTS;
        self.perform_with(pages, &mut new[0..wanted])
    }
}

impl<'a, K: Kind> Admitted<'a, K> {
    // The block of its record.
    pub(crate) fn block(&self) -> [u8; 256]
        ensures { result ≡ block_of (view self.now.operation.record) }
    {
        let record = self.operation.record;
        let mut block = [0u8; 256];
        let _ = record.write(&mut block);
        block
    }
}
