// Flush: a page's group goes to the page store.
ghost use Rattle.std.specs.Prelude.{◌≡◌, ℕ, ◌-◌, length, IfOk};
ghost use Rattle.sets.specs.Sets.{size as size_of};
ghost use Rattle.faults.specs.Faults.{refusal};
ghost use Rattle.tables.specs.Waiting.{waiting as waiting_of};
ghost use Rattle.tables.specs.DirtyOps.{dirty as dirty_of};
ghost use Rattle.volume.specs.Models.{up_over};
ghost use Rattle.volume.specs.Volumes.{Told};
ghost use Rattle.volume.specs.Flushing.{flush_check, GroupInstalled, FlushedWell, Flushed};

use crate::up::Up;
use faults::Fault;
use kinds::Kind;
use media::Medium;
use sets::{Page, lowest, size};
use stores::PageStore;

impl<K: Kind, L: Medium, S: PageStore> Up<K, L, S> {
    // The number of the first record that waits; the next number if none does.
    pub(crate) fn first_waiting(&self) -> u32
        ensures { result ≡ self.now.next - length (waiting_of self.now.waiting) }
    {
        (self.next as usize).saturating_sub(self.waiting.len()) as u32
    }

    // What keeps a page from being flushed.
    fn check_flush(&self, page: u32, group: u64, before: u64) -> Result<(), Fault>
        ensures { refusal result ≡ flush_check (up_over L.Medium S.PageStore self.now) page group before }
    {
        if group == 0 {
            return Err(Fault::PageClean(page));
        }
        if before != 0 {
            return Err(Fault::GroupBefore(lowest(before)));
        }
        match self.dirty.highest_in(group, self.first_waiting()) {
            Some(number) => Err(Fault::RecordWaiting(number)),
            None => Ok(()),
        }
    }

    // Installs the working images of a group; its operations are dirty no longer.
    fn install_group(&mut self, group: u64) -> Result<(), Fault>
        ensures { GroupInstalled (up_over L.Medium S.PageStore self.old) group (refusal result) (up_over L.Medium S.PageStore self.new) }
    {
        let outcome = self.store.install(group, self.pages.all());
        self.settle(outcome)?;
        self.dirty.remove(group);
        Ok(())
    }

    // Flushes a page that there is, in a well volume.
    fn flush_page(&mut self, page: Page) -> Result<u32, Fault>
        ensures flushed { (group : ℕ) × (FlushedWell (up_over L.Medium S.PageStore self.old) page.number group (refusal result) (up_over L.Medium S.PageStore self.new) × IfOk result (λ n. n ≡ size_of group)) }
    {
        let (group, before) = self.told(page);
        self.check_flush(page.number, group, before)?;
        self.install_group(group)?;
        Ok(size(group))
    }

    // Installs the group of a page in one install, and answers how many pages the group has.
    pub fn flush(&mut self, page: u32) -> Result<u32, Fault>
        ensures flushed { (group : ℕ) × (Flushed (up_over L.Medium S.PageStore self.old) page group (refusal result) (up_over L.Medium S.PageStore self.new) × IfOk result (λ n. n ≡ size_of group)) }
    {
        self.status?;
        let page = Page::new(page).ok_or(Fault::NoSuchPage(page))?;
        self.flush_page(page)
    }
}
