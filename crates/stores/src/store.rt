// A page store: 64 page images of 256 bytes on a medium, live, dead or short.
ghost use Rattle.std.specs.Prelude.{◌≡◌, ℕ, List};
ghost use Rattle.faults.specs.Faults.{refusal};
ghost use Rattle.stores.specs.Stores.{Store, read_fault, read_into, Installed, powered};

use faults::Fault;

pub trait PageStore {
    // how many blocks the store needs; on fewer it is short
    const BLOCKS: usize;

    ghost BLOCKS: { ℕ };

    // the images and the state
    ghost meaning: { Self → Store };

    // the blocks that an install of a set writes, in order
    ghost plan: { Self → ℕ → List ℕ };

    // Reads one image, live or dead.
    fn read(&self, page: u32, buffer: &mut [u8]) -> Result<(), Fault>
        ensures answer { refusal result ≡ read_fault (meaning self.now) page buffer.old }
        ensures buffer { buffer.new ≡ read_into (meaning self.now) page buffer.old };

    // Installs the images of a set's pages out of all 64. Where the power fails they are all old or all new.
    fn install(&mut self, set: u64, images: &[u8]) -> Result<(), Fault>
        ensures installed { Installed (meaning self.old) (plan self.old set) set images.now (refusal result) (meaning self.new) };

    // Power-on: a dead store lives again, and no image changes.
    fn power_on(&mut self)
        ensures after { meaning self.new ≡ powered (meaning self.old) }
        ensures plan { plan self.new ≡ plan self.old };
}
