// The two ends at a mount: powered on, long enough or not, the first number, the stored images.
ghost use Rattle.std.specs.Prelude.{◌≡◌, ℕ, ◌<◌, None, IfOk, nat_lt};
ghost use Rattle.faults.specs.declared.fault.Fault.TheVariants.{TooShort};
ghost use Rattle.faults.specs.Faults.{refusal, report};
ghost use Rattle.media.specs.Media.{block_count, block_at, powered, check};
ghost use Rattle.stores.specs.Stores.{is_short, powered as revived};
ghost use Rattle.logblocks.specs.Blocks.{header_in};
ghost use Rattle.volume.specs.Working.{image_at, taken};
ghost use Rattle.volume.specs.Formatting.{too_short};
ghost use Rattle.volume.specs.Mounting.{ahead_fault};

use crate::down::Down;
use crate::log_reader::LogReader;
use crate::pages::{IMAGE, WorkingPages};
use crate::store_reader::StoreReader;
use faults::Fault;
use logblocks::read_header;
use media::{BLOCK, Medium};
use sets::Page;
use stores::PageStore;

// The blocks that a log needs.
pub(crate) const LOG_BLOCKS: usize = 129;

impl<K, L: Medium, S: PageStore> Down<K, L, S> {
    // Powers on both ends.
    pub(crate) fn power_on(&mut self)
        ensures log { L.Medium.model self.new.log ≡ powered (L.Medium.model self.old.log) }
        ensures store { S.PageStore.meaning self.new.store ≡ revived (S.PageStore.meaning self.old.store) }
        ensures plan { S.PageStore.plan self.new.store ≡ S.PageStore.plan self.old.store }
    {
        self.log.power_on();
        self.store.power_on();
    }

    // Both ends, to be read, unless one is too short.
    pub(crate) fn readers(&self) -> Result<(LogReader<'_, L>, StoreReader<'_, S>), Fault>
        ensures answer { refusal result ≡ check (too_short (L.Medium.model self.now.log) (S.PageStore.meaning self.now.store)) (report TooShort) None }
        ensures log { IfOk result (λ ends. ends.0.log.now ≡ self.now.log) }
        ensures store { IfOk result (λ ends. ends.1.store.now ≡ self.now.store) }
    {
        Ok((LogReader::new(&self.log)?, StoreReader::new(&self.store)?))
    }
}

impl<'a, L: Medium> LogReader<'a, L> {
    fn new(log: &'a L) -> Result<LogReader<'a, L>, Fault>
        ensures answer { refusal result ≡ check (nat_lt (block_count (L.Medium.model log.now)) 129) (report TooShort) None }
        ensures log { IfOk result (λ reader. reader.log.now ≡ log.now) }
    {
        if log.count() < LOG_BLOCKS {
            return Err(Fault::TooShort);
        }
        Ok(LogReader { log })
    }

    // The bytes of one of the log's blocks.
    pub(crate) fn read(&self, block: usize) -> [u8; BLOCK]
        requires { block < 129 }
        ensures { result ≡ block_at (L.Medium.model self.now.log.now) block }
    {
        let mut bytes = [0u8; BLOCK];
        let _ = self.log.read(block, &mut bytes);
        bytes
    }

    // The log's first number, if block 0 is a header.
    pub(crate) fn first_number(&self) -> Option<u32>
        ensures { result ≡ header_in (block_at (L.Medium.model self.now.log.now) 0) }
    {
        read_header(&self.read(0))
    }
}

impl<'a, S: PageStore> StoreReader<'a, S> {
    // Only of a short store the reading of an image is refused.
    fn new(store: &'a S) -> Result<StoreReader<'a, S>, Fault>
        ensures answer { refusal result ≡ check (is_short (S.PageStore.meaning store.now).state) (report TooShort) None }
        ensures store { IfOk result (λ reader. reader.store.now ≡ store.now) }
    {
        let mut image = [0u8; IMAGE];
        store.read(0, &mut image).map_err(|_| Fault::TooShort)?;
        Ok(StoreReader { store })
    }

    // The stored image of a page.
    fn image(&self, page: Page) -> [u8; IMAGE]
        ensures { result ≡ (S.PageStore.meaning self.now.store.now).image page.number }
    {
        let mut image = [0u8; IMAGE];
        let _ = self.store.read(page.number, &mut image);
        image
    }

    // All stored images, as working pages.
    pub(crate) fn pages(&self) -> WorkingPages
        ensures { (q : ℕ) → image_at result.images q ≡ taken (S.PageStore.meaning self.now.store.now).image q }
    {
        let mut pages = WorkingPages::blank();
        for number in 0..64u32 {
            let page = Page { number };
            pages.set_image(page, &self.image(page));
        }
        pages
    }
}

impl WorkingPages {
    // No page's number may be at or above the next number.
    pub(crate) fn check_numbers(&self, next: u32) -> Result<(), Fault>
        ensures { refusal result ≡ ahead_fault (image_at self.now.images) next }
    {
        match (0..64u32).find(
            |number|
                requires { number.now < 64 }
            { self.number(Page { number: *number }) >= next },
        ) {
            Some(page) => Err(Fault::NumberAhead(page)),
            None => Ok(()),
        }
    }
}
