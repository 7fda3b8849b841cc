// A page store on a medium of 129 blocks or more, and the ways in which it can install.
ghost use Rattle.std.specs.Prelude.{◌≡◌, ℕ, ◌≤◌, List};
ghost use Rattle.faults.specs.Faults.{refusal};
ghost use Rattle.media.specs.Media.{block_count};
ghost use Rattle.media.specs.Media.{powered as powered_medium};
ghost use Rattle.media.specs.Plans.{Write, Ran};
ghost use Rattle.stores.specs.Stores.{store_on, Installed, powered, Carried};

use crate::blocks::{IMAGES, STORE_BLOCKS, install_allowed, read_page};
use crate::store::PageStore;
use faults::Fault;
use media::Medium;
use std::marker::PhantomData;

// A way of installing: which blocks it writes, in which order, and with what.
pub trait Way {
    // the block writes of an install, from the blocks, the set and the images
    ghost writes: { List (List ℕ) → ℕ → List ℕ → List Write };

    // the blocks that they write, in order; they are the same whatever the images are
    ghost plan: { List (List ℕ) → ℕ → List ℕ };

    // Makes these writes. Where the power fails the pages of the set are all old or all new.
    fn install<M: Medium>(medium: &mut M, set: u64, images: &[u8; IMAGES]) -> Result<(), Fault>
        ensures ran { Ran (M.Medium.model medium.old) (writes (M.Medium.model medium.old).blocks set images.now) (refusal result) (M.Medium.model medium.new) }
        ensures installed { 129 ≤ block_count (M.Medium.model medium.old) → Installed (store_on (M.Medium.model medium.old)) (plan (M.Medium.model medium.old).blocks set) set images.now (refusal result) (store_on (M.Medium.model medium.new)) };
}

// A page store on a medium, which installs in the way W.
#[derive(Drop)]
pub struct MediumStore<M, W> {
    medium: M,
    way: PhantomData<W>,
}

impl<M: Medium, W> MediumStore<M, W> {
    // The store on a medium.
    pub fn new(medium: M) -> MediumStore<M, W>
        ensures { result.medium ≡ medium }
    {
        MediumStore {
            medium,
            way: PhantomData,
        }
    }

    // Hands back the medium.
    pub fn into_medium(self) -> M
        ensures { result ≡ self.medium }
    {
        let MediumStore { medium, way: _ } = self;
        medium
    }
}

impl<M: Medium, W: Way> PageStore for MediumStore<M, W> {
    const BLOCKS: usize = STORE_BLOCKS;

    ghost BLOCKS = { 129 };

    ghost meaning = { λ s. store_on (M.Medium.model s.medium) };

    ghost plan = { λ s. W.Way.plan (M.Medium.model s.medium).blocks };

    fn read(&self, page: u32, buffer: &mut [u8]) -> Result<(), Fault> {
        read_page(&self.medium, page, buffer)
    }

    fn install(&mut self, set: u64, images: &[u8]) -> Result<(), Fault>
        ensures installed { Installed (store_on (M.Medium.model self.old.medium)) (W.Way.plan (M.Medium.model self.old.medium).blocks set) set images.now (refusal result) (store_on (M.Medium.model self.new.medium)) }
        ensures carried { Carried (M.Medium.model self.old.medium) (W.Way.writes (M.Medium.model self.old.medium).blocks set images.now) images.now (refusal result) (M.Medium.model self.new.medium) }
    {
        let all = install_allowed(&self.medium, images)?;
        W::install(&mut self.medium, set, all)
    }

    fn power_on(&mut self)
        ensures after { store_on (M.Medium.model self.new.medium) ≡ powered (store_on (M.Medium.model self.old.medium)) }
        ensures plan { W.Way.plan (M.Medium.model self.new.medium).blocks ≡ W.Way.plan (M.Medium.model self.old.medium).blocks }
        ensures medium { M.Medium.model self.new.medium ≡ powered_medium (M.Medium.model self.old.medium) }
    {
        self.medium.power_on();
    }
}
