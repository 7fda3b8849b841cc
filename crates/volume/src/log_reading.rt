// Reading the log's records.
ghost use Rattle.std.specs.Prelude.{◌≡◌, ◌-◌};
ghost use Rattle.faults.specs.Faults.{refusal};
ghost use Rattle.volume.specs.LogReading.{place_of, record_block, bears, end_of, record_fault};
ghost use Rattle.volume.specs.Mounting.{records_fault};

use crate::log_reader::LogReader;
use crate::operation::Operation;
use faults::Fault;
use kinds::Kind;
use logblocks::Record;
use media::{BLOCK, Medium};
use sets::Number;

// The block of a record.
pub(crate) fn record_place(number: u32) -> usize
    ensures { result ≡ place_of number }
{
    1 + (number % 128) as usize
}

// What is wrong with a block that should hold record n.
fn check_record<K: Kind>(n: u32, block: &[u8]) -> Result<(), Fault>
    ensures { refusal result ≡ record_fault K.Kind.meaning n block.now }
{
    let record = Record::parse(block).ok_or(Fault::BadRecord(n, 0))?;
    let operation = Operation::<K>::of(n, record.body).map_err(|refusal| Fault::BadRecord(
        n,
        refusal.code(),
    ))?;
    if operation.record.reads == record.reads && operation.record.writes == record.writes {
        Ok(())
    } else {
        Err(Fault::SetsDiffer(n))
    }
}

impl<'a, L: Medium> LogReader<'a, L> {
    // The block in which record n lies, if the log has it.
    pub(crate) fn block(&self, n: u32) -> [u8; BLOCK]
        ensures { result ≡ record_block (L.Medium.model self.now.log.now) n }
    {
        self.read(record_place(n))
    }

    // Whether the log has record n.
    fn has_record(&self, n: u32) -> bool
        ensures { result ≡ bears (L.Medium.model self.now.log.now) n }
    {
        u32::read_at(&self.block(n), 0) == n
    }

    // The number at which the log ends, read from its first number on: that of the first of 128 records that it does not have.
    pub(crate) fn end(&self, first: u32) -> u32
        ensures { result ≡ end_of (L.Medium.model self.now.log.now) first 128 }
    {
        let full = first.saturating_add(128);
        (first..full).find(|n| !self.has_record(*n)).unwrap_or(full)
    }

    // What is wrong with record n.
    fn check<K: Kind>(&self, n: u32) -> Result<(), Fault>
        ensures { refusal result ≡ record_fault K.Kind.meaning n (record_block (L.Medium.model self.now.log.now) n) }
    {
        check_record::<K>(n, &self.block(n))
    }

    // What is wrong with the first of the records that is at fault.
    pub(crate) fn check_records<K: Kind>(&self, first: u32, next: u32) -> Result<(), Fault>
        ensures { refusal result ≡ records_fault K.Kind.meaning (L.Medium.model self.now.log.now) first (next - first) }
    {
        for n in first..next {
            self.check::<K>(n)?;
        }
        Ok(())
    }
}
