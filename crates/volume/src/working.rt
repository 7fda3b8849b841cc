// The working pages, held by the volume itself.
ghost use Rattle.std.specs.Prelude.{◌≡◌, ℕ, ◌+◌, ◌*◌, ◌<◌, ◌≤◌, Bool, not, ◌||◌, [], ◌++◌, length, take, replicate, if◌then◌else◌, true};
ghost use Rattle.sets.specs.Sets.{has, count, size as size_of};
ghost use Rattle.sets.specs.Words.{part};
ghost use Rattle.redo.specs.Recovery.{every};
ghost use Rattle.volume.specs.Working.{image_at, number_of, contents_in, gathered, share_of, stamped, written, replaced};

use crate::pages::{FOUR, IMAGE, IMAGES, WorkingPages};
use kinds::CONTENTS;
use sets::{Number, Page, contains, size};

// The bytes of a page's number, in front of its contents.
const NUMBER: usize = 4;

// The N bytes from place `at` on.
fn bytes_at<const N: usize>(bytes: &[u8], at: usize) -> &[u8; N]
    requires { at + N ≤ length bytes.now }
    ensures { result.now ≡ part at N bytes.now }
{
    bytes[at..].split_first_chunk().unwrap().0
}

// Where the contents of a page stand among those of a set's pages, one after another, rising: behind those of the pages below it.
fn place(set: u64, page: Page) -> usize
    ensures { result ≡ 224 * count (has set) page.number }
{
    let below = size(set) - size(set >> page.number);
    CONTENTS * below as usize
}

impl WorkingPages {
    // Blank pages: all zeros.
    pub(crate) fn blank() -> WorkingPages
        ensures { result.images ≡ replicate 16384 0 }
    {
        WorkingPages {
            images: [0u8; IMAGES],
        }
    }

    // All images.
    pub(crate) fn all(&self) -> &[u8; IMAGES]
        ensures { result.now ≡ self.now.images }
    {
        &self.images
    }

    // The image of a page.
    pub(crate) fn image(&self, page: Page) -> &[u8; IMAGE]
        ensures { result.now ≡ image_at self.now.images page.number }
    {
        bytes_at(&self.images, IMAGE * page.index())
    }

    // The number of a page.
    pub(crate) fn number(&self, page: Page) -> u32
        ensures { result ≡ number_of (image_at self.now.images page.number) }
    {
        u32::read_at(self.image(page), 0)
    }

    // The contents of a page.
    fn contents(&self, page: Page) -> &[u8; CONTENTS]
        ensures { result.now ≡ contents_in (image_at self.now.images page.number) }
    {
        bytes_at(self.image(page), NUMBER)
    }

    // Whether the numbers of a set's pages all pass a test.
    pub(crate) fn numbers_all<F: Fn(u32) -> bool>(&self, set: u64, test: F) -> bool
        requires { F.IsAlwaysCallable test }
        ensures { (t : ℕ → Bool) → ((n : ℕ) (r : Bool) → F.post test n r → r ≡ t n) → result ≡ every 64 (λ p. not (has set p) || t (number_of (image_at self.now.images p))) }
    {
        (0..64u32).all(
            |number|
                requires page { number < 64 }
                requires callable { F.IsAlwaysCallable test }
                ensures { (t : ℕ → Bool) → ((n : ℕ) (r : Bool) → F.post test n r → r ≡ t n) → result ≡ (not (has set number) || t (number_of (image_at self.entry.now.images number))) }
            { !contains(set, number) || test(self.number(Page { number })) },
        )
    }

    // Replaces the image of a page.
    pub(crate) fn set_image(&mut self, page: Page, image: &[u8; IMAGE])
        ensures { (q : ℕ) → image_at self.new.images q ≡ replaced page.number image.now (image_at self.old.images) q }
    {
        let at = page.index() * IMAGE;
        self.images[at..at + IMAGE].copy_from_slice(image);
    }
}

impl WorkingPages {
    // Copies the contents of a page to their place in a buffer, if the page is in the set.
    fn lift(&self, set: u64, page: Page, old: &mut [u8])
        requires { 224 * size_of set ≤ length old.old }
        ensures { take (224 * count (has set) (page.number + 1)) old.new ≡ take (224 * count (has set) page.number) old.old ++ (if has set page.number then contents_in (image_at self.now.images page.number) else []) }
    {
        if !contains(set, page.number) {
            return;
        }
        let at = place(set, page);
        old[at..at + CONTENTS].copy_from_slice(self.contents(page));
    }

    // Copies the contents of a set's pages, rising, to the front of a buffer for four pages; answers how many bytes they are.
    pub(crate) fn gather(&self, set: u64, old: &mut [u8; FOUR]) -> usize
        requires few { size_of set ≤ 4 }
        ensures used { result ≡ 224 * size_of set }
        ensures front { take result old.new ≡ gathered set (image_at self.now.images) }
    {
        for number in 0..64u32 {
            self.lift(set, Page { number }, old);
        }
        CONTENTS * size(set) as usize
    }

    // The image of a page with another number and other contents.
    fn new_image(&self, page: Page, number: u32, contents: &[u8; CONTENTS]) -> [u8; IMAGE]
        ensures { result ≡ stamped number contents.now (image_at self.now.images page.number) }
    {
        let mut image = *self.image(page);
        number.write_at(&mut image, 0);
        image[NUMBER..NUMBER + CONTENTS].copy_from_slice(contents);
        image
    }

    // Gives a page a number and contents.
    fn stamp(&mut self, page: Page, number: u32, contents: &[u8; CONTENTS])
        ensures { (q : ℕ) → image_at self.new.images q ≡ replaced page.number (stamped number contents.now (image_at self.old.images page.number)) (image_at self.old.images) q }
    {
        let image = self.new_image(page, number, contents);
        self.set_image(page, &image);
    }

    // Gives one page its share of the new contents, if it is in the set.
    fn lay(&mut self, set: u64, number: u32, new: &[u8], page: Page)
        requires { 224 * size_of set ≤ length new.now }
        ensures { (q : ℕ) → image_at self.new.images q ≡ (if has set page.number then replaced page.number (stamped number (share_of set new.now page.number) (image_at self.old.images page.number)) (image_at self.old.images) q else image_at self.old.images q) }
    {
        if !contains(set, page.number) {
            return;
        }
        self.stamp(page, number, bytes_at(new, place(set, page)));
    }

    // Gives the pages of a set a number and new contents, which stand one after another, rising.
    pub(crate) fn scatter(&mut self, set: u64, number: u32, new: &[u8])
        requires long { length new.now ≡ 224 * size_of set }
        ensures { (q : ℕ) → image_at self.new.images q ≡ written set number new.now (image_at self.old.images) q }
    {
        for page in 0..64u32 {
            self.lay(set, number, new, Page { number: page });
        }
    }
}
