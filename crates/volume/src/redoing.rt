// The records of a log at a mount, redone.
ghost use Rattle.std.specs.Prelude.{◌≡◌, ◌-◌, ◌<◌, ◌≤◌, [], length, None};
ghost use Rattle.logblocks.specs.Blocks.{entry_of};
ghost use Rattle.logblocks.specs.Views.{view};
ghost use Rattle.tables.specs.DirtyOps.{dirty as dirty_of};
ghost use Rattle.volume.specs.Working.{image_at};
ghost use Rattle.volume.specs.LogReading.{record_fault};
ghost use Rattle.volume.specs.Performing.{outcome};
ghost use Rattle.volume.specs.Mounting.{is_installed as installed_in, is_missing as missing_in, records_fault, redone_by, record_redone, records_redone};
ghost use Rattle.volume.specs.Recovering.{redone_in, comes_to};

use crate::log_reader::LogReader;
use crate::operation::Operation;
use crate::pages::WorkingPages;
use crate::recovered::Rebuilt;
use faults::Fault;
use kinds::Kind;
use logblocks::Record;
use media::Medium;
use std::marker::PhantomData;

impl<'a, K: Kind> Operation<'a, K> {
    // Whether it is installed: all pages that it writes bear its number or a higher one.
    fn is_installed(&self, pages: &WorkingPages) -> bool
        ensures { result ≡ installed_in (view self.now.record) self.now.record.number (image_at pages.now.images) }
    {
        let number = self.record.number;
        pages.numbers_all(self.record.writes, |page_number| number <= page_number)
    }

    // Whether it is missing: all pages that it writes bear lower numbers.
    fn is_missing(&self, pages: &WorkingPages) -> bool
        ensures { result ≡ missing_in (view self.now.record) self.now.record.number (image_at pages.now.images) }
    {
        let number = self.record.number;
        pages.numbers_all(self.record.writes, |page_number| page_number < number)
    }
}

impl Rebuilt {
    // Does a missing operation again; it is dirty then.
    fn redo_missing<K: Kind>(&mut self, operation: &Operation<K>) -> Result<(), Fault>
        requires room { length (dirty_of self.old.dirty) < 128 }
        ensures { comes_to result (redone_in self.new) ≡ redone_by operation.now.record.number (view operation.now.record) (outcome K.Kind.meaning operation.now.record.body.now operation.now.record.reads (image_at self.old.pages.images)) (redone_in self.old) }
    {
        let number = operation.record.number;
        operation
            .perform(&mut self.pages)
            .map_err(|refusal| Fault::RedoRefused(number, refusal.code()))?;
        let _ = self.dirty.push(operation.op());
        Ok(())
    }

    // Record n, without fault: left if installed, redone if missing, and refused if neither.
    fn redo_record<K: Kind>(&mut self, n: u32, block: &[u8]) -> Result<(), Fault>
        requires faultless { record_fault K.Kind.meaning n block.now ≡ None }
        requires room { length (dirty_of self.old.dirty) < 128 }
        ensures { comes_to result (redone_in self.new) ≡ record_redone K.Kind.meaning n (entry_of block.now) (redone_in self.old) }
    {
        let logged = Record::parse(block).ok_or(Fault::BadRecord(n, 0))?;
        let operation = Operation::<K> {
            record: Record {
                number: n,
                ..logged
            },
            kind: PhantomData,
        };
        if operation.is_installed(&self.pages) {
            return Ok(());
        }
        if !operation.is_missing(&self.pages) {
            return Err(Fault::PartlyInstalled(n));
        }
        self.redo_missing(&operation)
    }

    // The records of a log in order, up to the first that is refused; they are without fault, and none is redone yet.
    pub(crate) fn redo_records<K: Kind, L: Medium>(
        &mut self,
        log: &LogReader<L>,
        first: u32,
        next: u32,
    ) -> Result<(), Fault>
        requires few { next - first ≤ 128 }
        requires faultless { None ≡ records_fault K.Kind.meaning (L.Medium.model log.now.log.now) first (next - first) }
        requires none { dirty_of self.old.dirty ≡ [] }
        ensures { comes_to result (redone_in self.new) ≡ records_redone K.Kind.meaning (L.Medium.model log.now.log.now) first (next - first) (redone_in self.old) }
    {
        for n in first..next {
            self.redo_record::<K>(n, &log.block(n))?;
        }
        Ok(())
    }
}
