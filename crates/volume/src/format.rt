// Format: a new volume.
ghost use Rattle.std.specs.Prelude.{◌≡◌};
ghost use Rattle.faults.specs.Faults.{refusal};
ghost use Rattle.media.specs.Plans.{Ran};
ghost use Rattle.stores.specs.Stores.{Installed};
ghost use Rattle.volume.specs.Models.{down_over};
ghost use Rattle.volume.specs.Formatting.{blanks, all_pages, blank_images, format_check, Begun, Formatted};

use crate::down::Down;
use crate::ends::LOG_BLOCKS;
use crate::pages::WorkingPages;
use faults::Fault;
use kinds::Kind;
use logblocks::header_block;
use media::{BLOCK, Medium};
use stores::PageStore;

// All 64 pages.
const ALL: u64 = u64::MAX;

// Writes zeros to blocks 0 to 128, rising.
fn blank_log<L: Medium>(log: &mut L) -> Result<(), Fault>
    ensures { Ran (L.Medium.model log.old) blanks (refusal result) (L.Medium.model log.new) }
{
    for block in 0..LOG_BLOCKS {
        log.write(block, &[0u8; BLOCK])?;
    }
    Ok(())
}

// Installs 64 blank images.
fn blank_store<S: PageStore>(store: &mut S) -> Result<(), Fault>
    ensures { Installed (S.PageStore.meaning store.old) (S.PageStore.plan store.old all_pages) all_pages blank_images (refusal result) (S.PageStore.meaning store.new) }
{
    let blank = WorkingPages::blank();
    store.install(ALL, blank.all())
}

impl<K: Kind, L: Medium, S: PageStore> Down<K, L, S> {
    // What keeps a volume from being formatted.
    fn check_format(&self, first: u32) -> Result<(), Fault>
        ensures { refusal result ≡ format_check first (down_over L.Medium S.PageStore self.now) }
    {
        if first == 0 {
            return Err(Fault::BadHeader);
        }
        let _ = self.readers()?;
        Ok(())
    }

    // Powers both ends on, blanks the log, installs blank images and writes the header.
    fn begin(&mut self, first: u32) -> Result<(), Fault>
        ensures { Begun first (down_over L.Medium S.PageStore self.old) (refusal result) (down_over L.Medium S.PageStore self.new) }
    {
        self.power_on();
        blank_log(&mut self.log)?;
        blank_store(&mut self.store)?;
        self.log.write(0, &header_block(first))
    }

    // Makes a new volume, empty, whose first operation will bear the number `first`.
    pub fn format(&mut self, first: u32) -> Result<(), Fault>
        ensures { Formatted first (down_over L.Medium S.PageStore self.old) (refusal result) (down_over L.Medium S.PageStore self.new) }
    {
        self.check_format(first)?;
        self.begin(first)
    }
}
