// The log's header: the text LTR1 and the number of the first record.
ghost use Rattle.std.specs.Prelude.{◌≡◌, ◌≢◌, ℕ, Bool, true, not, ◌&&◌, ◌↔◌, length, take, if◌then◌else◌, Some, codes, is_ok, IsOk, IsErrOf, ◌==◌};
ghost use Rattle.logblocks.specs.Blocks.{same, is_header_block, header_in, header_of};

use crate::zeros::all_zero;
use crate::{BLOCK, Misfit};
use sets::Number;

const MAGIC: [u8; 4] = *b"LTR1";

// Whether a block begins with the text.
fn titled(block: &[u8]) -> bool
    ensures { result ≡ same (take 4 block.now) (codes "LTR1") }
{
    block.starts_with(&MAGIC)
}

// Whether a block is a header.
fn is_header(block: &[u8]) -> bool
    ensures { result ≡ is_header_block block.now }
{
    block.len() == BLOCK && titled(block) && u32::read_at(block, 4) != 0 && all_zero(&block[8..])
}

// The first number that a header block names; none where the block is no header.
pub fn read_header(block: &[u8]) -> Option<u32>
    ensures value { result ≡ header_in block.now }
    ensures back { (n : ℕ) → result ≡ Some n → header_of n ≡ block.now }
{
    is_header(block).then_some(u32::read_at(block, 4))
}

// The header block that names a first number.
pub fn header_block(first: u32) -> [u8; BLOCK]
    ensures { result ≡ header_of first }
{
    let mut block = [0u8; BLOCK];
    block[0..4].copy_from_slice(&MAGIC);
    first.write_at(&mut block, 4);
    block
}

// Writes a header block; refuses a block of another length, then a first number of 0, and leaves the block then.
pub fn write_header(block: &mut [u8], first: u32) -> Result<(), Misfit>
    ensures answer { is_ok result ≡ (length block.old == 256 && not (first == 0)) }
    ensures block_length { IsErrOf result Misfit.BlockLength ↔ (length block.old ≢ 256) }
    ensures first_zero { IsErrOf result Misfit.FirstZero ↔ (length block.old ≡ 256) × (first ≡ 0) }
    ensures after { block.new ≡ (if is_ok result then header_of first else block.old) }
    ensures back { IsOk result → header_in block.new ≡ Some first }
{
    if block.len() != BLOCK {
        return Err(Misfit::BlockLength);
    }
    if first == 0 {
        return Err(Misfit::FirstZero);
    }
    block.copy_from_slice(&header_block(first));
    Ok(())
}
