// The working pages' bytes.
ghost use Rattle.std.specs.Prelude.{◌≡◌, length};

use kinds::CONTENTS;

// The bytes of an image.
pub(crate) const IMAGE: usize = 256;

// The bytes of 64 images.
pub(crate) const IMAGES: usize = 64 * IMAGE;

// The bytes of the contents of four pages.
pub(crate) const FOUR: usize = 4 * CONTENTS;

// 64 page images, one after another.
#[derive(Drop)]
pub struct WorkingPages {
    pub images: [u8; IMAGES],
    ghost sized: { length images ≡ 16384 },
}
