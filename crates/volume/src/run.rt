// Run: one more operation.
ghost use Rattle.std.specs.Prelude.{◌≡◌, ◌<◌, ◌≤◌, length, IfOk, Ok, OnOk};
ghost use Rattle.faults.specs.Faults.{refusal};
ghost use Rattle.volume.specs.Models.{up_over};
ghost use Rattle.volume.specs.Working.{image_at};
ghost use Rattle.volume.specs.Performing.{outcome};
ghost use Rattle.volume.specs.Volumes.{admit_fault, room_fault, pages_fault, entered, run_fault, after_run};

use crate::operation::{Admitted, Operation};
use crate::up::Up;
use faults::Fault;
use kinds::Kind;
use media::Medium;
use stores::PageStore;

// No record bears this number.
const LAST: u32 = u32::MAX;

const LONGEST: usize = 232;

impl<K: Kind, L: Medium, S: PageStore> Up<K, L, S> {
    // Room in memory, room in the log, a number left.
    fn check_room(&self) -> Result<(), Fault>
        ensures answer { refusal result ≡ room_fault (up_over L.Medium S.PageStore self.now) }
        ensures left { OnOk result (self.now.next < 4294967295) }
    {
        if self.waiting.len() >= 16 {
            return Err(Fault::WaitingFull);
        }
        if self.next.saturating_sub(self.first) >= 128 {
            return Err(Fault::LogFull);
        }
        if self.next == LAST {
            return Err(Fault::NumbersSpent(self.next));
        }
        Ok(())
    }

    // The checks of a run ahead of the pages; the operation of the body, which will bear the next number.
    fn admit<'a>(&self, body: &'a [u8]) -> Result<Admitted<'a, K>, Fault>
        ensures answer { refusal result ≡ admit_fault K.Kind.meaning (up_over L.Medium S.PageStore self.now) body.now }
        ensures made { IfOk result (λ a. (a.operation.record.number ≡ self.now.next) × (a.operation.record.body.now ≡ body.now)) }
    {
        self.status?;
        if body.len() > LONGEST {
            return Err(Fault::WrongLength(body.len()));
        }
        let operation = Operation::of(self.next, body).map_err(|refusal| Fault::BodyRefused(
            refusal.code(),
        ))?;
        self.check_room()?;
        Ok(Admitted { operation })
    }

    // Does an admitted operation, lets its record wait and lists it as dirty.
    fn enter(&mut self, admitted: &Admitted<K>) -> Result<u32, Fault>
        requires { admitted.now.operation.record.number ≡ self.old.next }
        ensures answer { refusal result ≡ pages_fault (outcome K.Kind.meaning admitted.now.operation.record.body.now admitted.now.operation.record.reads (image_at self.old.pages.images)) }
        ensures number { IfOk result (λ n. n ≡ self.old.next) }
        ensures after { up_over L.Medium S.PageStore self.new ≡ entered (outcome K.Kind.meaning admitted.now.operation.record.body.now admitted.now.operation.record.reads (image_at self.old.pages.images)) admitted.now.operation.record.body.now admitted.now.operation.record.reads admitted.now.operation.record.writes (up_over L.Medium S.PageStore self.old) }
    {
        let operation = &admitted.operation;
        operation
            .perform(&mut self.pages)
            .map_err(|refusal| Fault::PagesRefused(refusal.code()))?;
        let _ = self.waiting.push(&admitted.block());
        let _ = self.dirty.push(operation.op());
        let number = self.next;
        self.next = number + 1;
        Ok(number)
    }

    // Runs an operation: the working pages take its contents and its number, and its record waits. Answers its number.
    pub fn run(&mut self, body: &[u8]) -> Result<u32, Fault>
        ensures answer { refusal result ≡ run_fault K.Kind.meaning (up_over L.Medium S.PageStore self.old) body.now }
        ensures number { IfOk result (λ n. n ≡ self.old.next) }
        ensures after { up_over L.Medium S.PageStore self.new ≡ after_run K.Kind.meaning (up_over L.Medium S.PageStore self.old) body.now }
    {
        let admitted = self.admit(body)?;
        self.enter(&admitted)
    }
}
