// Force: the records that wait go to the log.
ghost use Rattle.std.specs.Prelude.{◌≡◌, ◌-◌, ◌<◌, length, drop, IfOk};
ghost use Rattle.faults.specs.Faults.{refusal};
ghost use Rattle.media.specs.Media.{Wrote};
ghost use Rattle.volume.specs.Working.{number_of};
ghost use Rattle.volume.specs.LogReading.{place_of};
ghost use Rattle.volume.specs.Models.{up_over};
ghost use Rattle.volume.specs.Volumes.{noted};
ghost use Rattle.volume.specs.Forcing.{Logged, Forced};

use crate::log_reading::record_place;
use crate::up::Up;
use faults::Fault;
use kinds::Kind;
use media::{BLOCK, Medium};
use sets::Number;
use stores::PageStore;

// Writes a record into the block of its number.
fn write_record<L: Medium>(log: &mut L, block: &[u8; BLOCK]) -> Result<(), Fault>
    ensures { Wrote (L.Medium.model log.old) (place_of (number_of block.now)) block.now (refusal result) (L.Medium.model log.new) }
{
    log.write(record_place(u32::read_at(block, 0)), block)
}

// Writes records, in order, up to the first write that is refused; says how many were written before it.
fn write_records<L: Medium>(log: &mut L, blocks: &[[u8; BLOCK]]) -> (usize, Result<(), Fault>)
    ensures { Logged (L.Medium.model log.old) blocks.now (refusal result.1) (L.Medium.model log.new) (drop result.0 blocks.now) }
{
    for (i, block) in blocks.iter().enumerate() {
        if let Err(fault) = write_record(log, block) {
            return (i, Err(fault));
        }
    }
    (blocks.len(), Ok(()))
}

impl<K: Kind, L: Medium, S: PageStore> Up<K, L, S> {
    // Takes note of how a call ended: where the power failed, a well volume is halted.
    // Kept: a match on the status and the outcome together, changed in place, is a rule of the project; `?` would hide which of the two decides.
    pub(crate) fn settle(&mut self, outcome: Result<(), Fault>) -> Result<(), Fault>
        ensures answer { result ≡ outcome }
        ensures after { up_over L.Medium S.PageStore self.new ≡ noted (refusal outcome) (up_over L.Medium S.PageStore self.old) }
    {
        match (&mut self.status, outcome) {
            (Ok(()), Err(Fault::PowerLost(block))) => {
                self.status = Err(Fault::PowerLost(block));
            }
            _ => {}
        }
        outcome
    }

    // Writes the records that wait, in order; one whose write dies still waits. Answers the next number less 1.
    pub fn force(&mut self) -> Result<u32, Fault>
        ensures forced { Forced (up_over L.Medium S.PageStore self.old) (refusal result) (up_over L.Medium S.PageStore self.new) }
        ensures number { IfOk result (λ n. n ≡ self.old.next - 1) }
    {
        self.status?;
        let (written, outcome) = write_records(&mut self.log, self.waiting.list());
        self.waiting.drop_front(written);
        self.settle(outcome)?;
        Ok(self.next.saturating_sub(1))
    }
}
