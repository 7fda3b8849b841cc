// The shadow store: page p has the frames p and 64 + p, and the set in block 128 says which pages are in the upper one.
ghost use Rattle.stores.specs.Plans.{shadow_writes, shadow_plan};

use crate::blocks::{EVERY_PAGE, IMAGES, load_set, write_images, write_set};
use crate::on_medium::{MediumStore, Way};
use faults::Fault;
use media::Medium;

// The way of the shadow store.
pub struct Shadow;

pub type ShadowStore<M> = MediumStore<M, Shadow>;

impl Way for Shadow {
    ghost writes = { shadow_writes };

    ghost plan = { shadow_plan };

    // Writes the other frames of the set's pages, and then turns block 128 to them.
    fn install<M: Medium>(medium: &mut M, set: u64, images: &[u8; IMAGES]) -> Result<(), Fault> {
        let upper = load_set(medium);
        if set == 0 {
            return Ok(());
        }
        write_images(medium, upper ^ EVERY_PAGE, set, images)?;
        write_set(medium, upper ^ set)
    }
}
