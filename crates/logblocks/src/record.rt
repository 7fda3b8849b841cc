// Records: which operation ran, the pages that it read and wrote, and its body.
ghost use Rattle.std.specs.Prelude.{◌≡◌, ◌≢◌, ◌<◌, ◌&&◌, ◌↔◌, length, if◌then◌else◌, Some, is_ok, IsOk, IsErrOf, ◌==◌, nat_le};
ghost use Rattle.logblocks.specs.Blocks.{Entry, is_record_block, record_in, block_of};
ghost use Rattle.logblocks.specs.Views.{view, viewed};

use crate::zeros::all_zero;
use crate::{BLOCK, Misfit};
use sets::Number;

#[derive(Clone, Copy, Debug, PartialEq, Eq)]
pub struct Record<'a> {
    pub number: u32,
    pub reads: u64,
    pub writes: u64,
    pub body: &'a [u8],
}

const LONGEST: usize = 232;

// Whether a block is a record.
fn is_record(block: &[u8]) -> bool
    ensures { result ≡ is_record_block block.now }
{
    block.len() == BLOCK
        && block[20] as usize <= LONGEST
        && all_zero(&block[21 + block[20] as usize..])
}

impl<'a> Record<'a> {
    // The record that a block holds; none where the block is no record.
    pub fn parse(block: &'a [u8]) -> Option<Record<'a>>
        ensures value { viewed result ≡ record_in block.now }
        ensures back { (e : Entry) → viewed result ≡ Some e → block_of e ≡ block.now }
    {
        is_record(block).then(|| Record {
            number: u32::read_at(block, 0),
            reads: u64::read_at(block, 4),
            writes: u64::read_at(block, 12),
            body: &block[21..21 + block[20] as usize],
        })
    }

    // Writes the record's block; refuses a block of another length, then a body above 232 bytes, and leaves the block then.
    pub fn write(&self, block: &mut [u8]) -> Result<(), Misfit>
        ensures answer { is_ok result ≡ (length block.old == 256 && nat_le (length (view self.now).body) 232) }
        ensures block_length { IsErrOf result Misfit.BlockLength ↔ (length block.old ≢ 256) }
        ensures body_length { IsErrOf result Misfit.BodyLength ↔ (length block.old ≡ 256) × (232 < length (view self.now).body) }
        ensures after { block.new ≡ (if is_ok result then block_of (view self.now) else block.old) }
        ensures back { IsOk result → record_in block.new ≡ Some (view self.now) }
    {
        if block.len() != BLOCK {
            return Err(Misfit::BlockLength);
        }
        if self.body.len() > LONGEST {
            return Err(Misfit::BodyLength);
        }
        block.fill(0);
        self.number.write_at(block, 0);
        self.reads.write_at(block, 4);
        self.writes.write_at(block, 12);
        block[20] = self.body.len() as u8;
        block[21..21 + self.body.len()].copy_from_slice(self.body);
        Ok(())
    }
}
