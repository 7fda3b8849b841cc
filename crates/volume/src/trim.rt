// Trim: the log gives up records that are installed.
ghost use Rattle.std.specs.Prelude.{◌≡◌, IfOk, ◌==◌};
ghost use Rattle.faults.specs.Faults.{refusal};
ghost use Rattle.volume.specs.Models.{up_over};
ghost use Rattle.volume.specs.Forcing.{trimmed_to, Trimmed};

use crate::up::Up;
use faults::Fault;
use kinds::Kind;
use logblocks::header_block;
use media::Medium;
use stores::PageStore;

impl<K: Kind, L: Medium, S: PageStore> Up<K, L, S> {
    // The number at which the log has to start: the lowest of a dirty operation, or the next number if there is none.
    fn needed_from(&self) -> u32
        ensures { result ≡ trimmed_to (up_over L.Medium S.PageStore self.now) }
    {
        self.dirty.lowest(self.next)
    }

    // Whether the log starts there already.
    fn starts_at(&self, number: u32) -> bool
        ensures { result ≡ (number == self.now.first) }
    {
        number == self.first
    }

    // The first number becomes the lowest number of a dirty operation, or the next number if there is none; block 0 is written if it
    // changes. Answers the first number.
    pub fn trim(&mut self) -> Result<u32, Fault>
        ensures trimmed { Trimmed (up_over L.Medium S.PageStore self.old) (refusal result) (up_over L.Medium S.PageStore self.new) }
        ensures number { IfOk result (λ n. n ≡ self.new.first) }
    {
        self.status?;
        let first = self.needed_from();
        if self.starts_at(first) {
            return Ok(first);
        }
        let outcome = self.log.write(0, &header_block(first));
        self.settle(outcome)?;
        self.first = first;
        Ok(first)
    }
}
