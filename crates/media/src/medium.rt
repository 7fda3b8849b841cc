// A block medium: 256-byte blocks from 0, their count, live or dead.
ghost use Rattle.std.specs.Prelude.{◌≡◌};
ghost use Rattle.faults.specs.Faults.{refusal};
ghost use Rattle.media.specs.Media.{Device, Whole, block_count, read_fault, read_into, Wrote, powered};

use faults::Fault;

// The bytes of a block.
pub const BLOCK: usize = 256;

pub trait Medium {
    // the blocks, and whether the medium is live
    ghost model: { Self → Device };

    // How many blocks there are, each of 256 bytes; this never changes.
    fn count(&self) -> usize
        ensures count { result ≡ block_count (model self.now) }
        ensures whole { Whole (model self.now) };

    // Reads a block, live or dead.
    fn read(&self, block: usize, buffer: &mut [u8]) -> Result<(), Fault>
        ensures answer { refusal result ≡ read_fault (model self.now) block buffer.old }
        ensures buffer { buffer.new ≡ read_into (model self.now) block buffer.old };

    // Writes a block. Where the power fails the block is wholly old or wholly new.
    fn write(&mut self, block: usize, data: &[u8]) -> Result<(), Fault>
        ensures wrote { Wrote (model self.old) block «data».now (refusal result) (model self.new) };

    // Power-on: the medium is live, and no block changes.
    fn power_on(&mut self)
        ensures after { model self.new ≡ powered (model self.old) };
}
