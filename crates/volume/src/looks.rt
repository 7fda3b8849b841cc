// Calls that change nothing, and stop.
ghost use Rattle.std.specs.Prelude.{◌≡◌, length, IfOk};
ghost use Rattle.faults.specs.Faults.{refusal};
ghost use Rattle.tables.specs.Waiting.{waiting as waiting_of};
ghost use Rattle.tables.specs.DirtyOps.{dirty as dirty_of};
ghost use Rattle.volume.specs.Working.{image_at};
ghost use Rattle.volume.specs.Models.{up_over};
ghost use Rattle.volume.specs.Volumes.{page_fault, filled_with, group_fault, Told};

use crate::down::Down;
use crate::pages::IMAGE;
use crate::up::Up;
use faults::Fault;
use kinds::Kind;
use media::Medium;
use sets::Page;
use stores::PageStore;

impl<K: Kind, L: Medium, S: PageStore> Up<K, L, S> {
    // Copies a page's working image into a buffer.
    pub fn page(&self, page: u32, buffer: &mut [u8]) -> Result<(), Fault>
        ensures answer { refusal result ≡ page_fault (up_over L.Medium S.PageStore self.now) page buffer.old }
        ensures buffer { buffer.new ≡ filled_with (refusal result) (image_at self.now.pages.images page) buffer.old }
    {
        self.status?;
        let page = Page::new(page).ok_or(Fault::NoSuchPage(page))?;
        let length = buffer.len();
        let image: &mut [u8; IMAGE] = buffer.as_mut_array().ok_or(Fault::WrongLength(length))?;
        *image = *self.pages.image(page);
        Ok(())
    }

    // A page's group, and the set of all pages in groups directly before it; both empty if the page is clean.
    pub fn group(&self, page: u32) -> Result<(u64, u64), Fault>
        ensures answer { refusal result ≡ group_fault (up_over L.Medium S.PageStore self.now) page }
        ensures told { IfOk result (Told (dirty_of self.now.dirty) page) }
    {
        self.status?;
        let page = Page::new(page).ok_or(Fault::NoSuchPage(page))?;
        Ok(self.told(page))
    }

    // The group of a page that there is, and the set of all pages in groups directly before it.
    pub(crate) fn told(&self, page: Page) -> (u64, u64)
        ensures { Told (dirty_of self.now.dirty) page.number result }
    {
        let ops = self.dirty.list();
        let group = graph::group(ops, page.number);
        let before = graph::before(ops, page.number);
        (group, before)
    }

    // Hands back the down volume; drops the records that wait, and answers how many.
    pub fn stop(self) -> (Down<K, L, S>, usize)
        ensures log { result.0.log ≡ self.log }
        ensures store { result.0.store ≡ self.store }
        ensures dropped { result.1 ≡ length (waiting_of self.waiting) }
    {
        let Up {
            log,
            store,
            pages: _,
            waiting,
            dirty: _,
            first: _,
            next: _,
            status: _,
            kind,
        } = self;
        let dropped = waiting.len();
        (Down { log, store, kind }, dropped)
    }
}
