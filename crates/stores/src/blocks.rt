// The blocks of a store: images in 0 to 127, two for each page, and a set in block 128.
ghost use Rattle.std.specs.Prelude.{◌≡◌, ◌<◌, ◌≤◌, [], ◌∷◌, None, not, nat_le, IfOk};
ghost use Rattle.sets.specs.Sets.{has};
ghost use Rattle.faults.specs.Faults.{refusal, report};
ghost use Rattle.faults.specs.declared.fault.Fault.TheVariants.{TooShort};
ghost use Rattle.media.specs.Media.{block_count, block_at, check};
ghost use Rattle.media.specs.Plans.{Ran};
ghost use Rattle.stores.specs.Images.{image_of, pictured};
ghost use Rattle.stores.specs.Layout.{slot, set_in, block_of_set};
ghost use Rattle.stores.specs.Stores.{read_fault, read_into, store_on, install_check};
ghost use Rattle.stores.specs.Plans.{image_writes, set_write, of_page, every_page, settle_writes};

use faults::Fault;
use media::{BLOCK, Medium};
use sets::{Number, Page, contains};

// How many pages there are.
const PAGES: u32 = 64;

// The bytes of an image that are stored: number and contents.
const STORED: usize = 228;

// The bytes of 64 images.
pub(crate) const IMAGES: usize = 16384;

// The block that holds a set, the last that a store needs.
const SET_BLOCK: usize = 128;

pub(crate) const STORE_BLOCKS: usize = 129;

// Every page, as a set.
pub(crate) const EVERY_PAGE: u64 = u64::MAX;

// The block of a page: upper where the page is in `upper`.
fn slot_of(upper: u64, page: Page) -> usize
    ensures { result ≡ slot upper page.number }
{
    if contains(upper, page.number) {
        return 64 + page.index();
    }
    page.index()
}

// Reads the image in a block.
fn load_image<M: Medium>(medium: &M, block: usize, image: &mut [u8; BLOCK])
    requires there { block < block_count (M.Medium.model medium.now) }
    ensures image { image.new ≡ image_of (block_at (M.Medium.model medium.now) block) }
{
    let _ = medium.read(block, image);
    image[STORED..].fill(0);
}

// Reads the set in block 128; the empty set where there is no such block.
pub(crate) fn load_set<M: Medium>(medium: &M) -> u64
    ensures { result ≡ set_in (M.Medium.model medium.now).blocks }
{
    let mut block = [0u8; BLOCK];
    let _ = medium.read(SET_BLOCK, &mut block);
    u64::read_at(&block, 0)
}

// The block that holds a set.
fn set_block(set: u64) -> [u8; BLOCK]
    ensures { result ≡ block_of_set set }
{
    let mut block = [0u8; BLOCK];
    set.write_at(&mut block, 0);
    block
}

// Writes a set into block 128.
pub(crate) fn write_set<M: Medium>(medium: &mut M, set: u64) -> Result<(), Fault>
    ensures ran { Ran (M.Medium.model medium.old) (set_write set ∷ []) (refusal result) (M.Medium.model medium.new) }
{
    let block = set_block(set);
    medium.write(SET_BLOCK, &block)
}

// The image of a page, out of all 64.
fn picture(images: &[u8; IMAGES], page: Page) -> [u8; BLOCK]
    ensures { result ≡ pictured images.now page.number }
{
    let at = page.index() * BLOCK;
    let mut block = [0u8; BLOCK];
    block[0..STORED].copy_from_slice(&images[at..at + STORED]);
    block
}

// Writes the image of one page into its block, if the page is in the set.
// Kept: `upper`, `set` and `images` as they are: a struct of the three would be made anew for each of the three runs of writes.
fn put_image<M: Medium>(
    medium: &mut M,
    upper: u64,
    set: u64,
    images: &[u8; IMAGES],
    page: Page,
) -> Result<(), Fault>
    ensures ran { Ran (M.Medium.model medium.old) (of_page upper set (pictured images.now) page.number) (refusal result) (M.Medium.model medium.new) }
{
    if !contains(set, page.number) {
        return Ok(());
    }
    let block = picture(images, page);
    medium.write(slot_of(upper, page), &block)
}

// Writes the images of a set's pages, rising, each into its block.
pub(crate) fn write_images<M: Medium>(
    medium: &mut M,
    upper: u64,
    set: u64,
    images: &[u8; IMAGES],
) -> Result<(), Fault>
    ensures ran { Ran (M.Medium.model medium.old) (image_writes upper set (pictured images.now)) (refusal result) (M.Medium.model medium.new) }
{
    for number in 0..PAGES {
        put_image(medium, upper, set, images, Page { number })?;
    }
    Ok(())
}

// Copies the staged image of one page home, if the page is in the mark.
// Kept: this and `put_image` differ in the image alone, and so do their loops; a closure that gives the image would need a clause on what
// it gives after each of the writes before, and be no plainer.
fn bring_home<M: Medium>(medium: &mut M, mark: u64, page: Page) -> Result<(), Fault>
    requires there { 129 ≤ block_count (M.Medium.model medium.old) }
    ensures ran { Ran (M.Medium.model medium.old) (of_page 0 mark (λ p. image_of (block_at (M.Medium.model medium.old) (slot every_page p))) page.number) (refusal result) (M.Medium.model medium.new) }
{
    if !contains(mark, page.number) {
        return Ok(());
    }
    let mut image = [0u8; BLOCK];
    load_image(medium, slot_of(EVERY_PAGE, page), &mut image);
    medium.write(slot_of(0, page), &image)
}

// Reads the image of a page, live or dead.
pub(crate) fn read_page<M: Medium>(medium: &M, page: u32, buffer: &mut [u8]) -> Result<(), Fault>
    ensures answer { refusal result ≡ read_fault (store_on (M.Medium.model medium.now)) page buffer.old }
    ensures buffer { buffer.new ≡ read_into (store_on (M.Medium.model medium.now)) page buffer.old }
{
    let page = Page::new(page).ok_or(Fault::NoSuchPage(page))?;
    let length = buffer.len();
    let image: &mut [u8; BLOCK] = buffer.as_mut_array().ok_or(Fault::WrongLength(length))?;
    long_enough(medium)?;
    load_image(medium, slot_of(load_set(medium), page), image);
    Ok(())
}

// Copies the staged images of the mark's pages home, rising.
fn bring_all_home<M: Medium>(medium: &mut M, mark: u64) -> Result<(), Fault>
    requires there { 129 ≤ block_count (M.Medium.model medium.old) }
    ensures ran { Ran (M.Medium.model medium.old) (image_writes 0 mark (λ p. image_of (block_at (M.Medium.model medium.old) (slot every_page p)))) (refusal result) (M.Medium.model medium.new) }
{
    for number in 0..PAGES {
        bring_home(medium, mark, Page { number })?;
    }
    Ok(())
}

// Settles a mark that is not empty: copies its pages home and clears it.
pub(crate) fn settle<M: Medium>(medium: &mut M) -> Result<(), Fault>
    ensures ran { Ran (M.Medium.model medium.old) (settle_writes (M.Medium.model medium.old).blocks) (refusal result) (M.Medium.model medium.new) }
{
    let mark = load_set(medium);
    if mark == 0 {
        return Ok(());
    }
    bring_all_home(medium, mark)?;
    write_set(medium, 0)
}

// The checks of an install ahead of its writes: all 64 images, and blocks enough. Gives the images.
pub(crate) fn install_allowed<'a, M: Medium>(
    medium: &M,
    images: &'a [u8],
) -> Result<&'a [u8; IMAGES], Fault>
    ensures answer { refusal result ≡ install_check (M.Medium.model medium.now) images.now }
    ensures images { IfOk result (λ all. all.now ≡ images.now) }
{
    let all = images.as_array().ok_or(Fault::WrongLength(images.len()))?;
    long_enough(medium)?;
    Ok(all)
}

// A medium with fewer blocks than a store needs makes it short.
fn long_enough<M: Medium>(medium: &M) -> Result<(), Fault>
    ensures { refusal result ≡ check (not (nat_le 129 (block_count (M.Medium.model medium.now)))) (report TooShort) None }
{
    if medium.count() < STORE_BLOCKS {
        return Err(Fault::TooShort);
    }
    Ok(())
}
