// The journal store: homes in blocks 0 to 63, staged images in 64 to 127, the mark in block 128.
ghost use Rattle.stores.specs.Plans.{journal_writes, journal_plan};

use crate::blocks::{EVERY_PAGE, IMAGES, settle, write_images, write_set};
use crate::on_medium::{MediumStore, Way};
use faults::Fault;
use media::Medium;

// The way of the journal store.
pub struct Journal;

pub type JournalStore<M> = MediumStore<M, Journal>;

impl Way for Journal {
    ghost writes = { journal_writes };

    ghost plan = { journal_plan };

    // Settles, stages the images, marks them, copies them home and clears the mark.
    fn install<M: Medium>(medium: &mut M, set: u64, images: &[u8; IMAGES]) -> Result<(), Fault> {
        if set == 0 {
            return Ok(());
        }
        // Called for what it promises of the blocks: each has 256 bytes.
        let _ = medium.count();
        settle(medium)?;
        write_images(medium, EVERY_PAGE, set, images)?;
        write_set(medium, set)?;
        write_images(medium, 0, set, images)?;
        write_set(medium, 0)
    }
}
