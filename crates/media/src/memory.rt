// A medium over the host's bytes: as many blocks as fit; the rest is never touched.
ghost use Rattle.std.specs.Prelude.{◌≡◌, ◌<◌, true, [], length, if◌then◌else◌, slice_index_or, slice_set, IfOk};
ghost use Rattle.media.specs.declared.fuse.Fuse.TheVariants.{Absent, Armed};
ghost use Rattle.faults.specs.Faults.{refusal};
ghost use Rattle.media.specs.Media.{begins, read_fault, Wrote, WroteBy, powered};
ghost use Rattle.media.specs.Memory.{memory, blocks_of, behind, fitting, fate_of, burnt, renewed, KeepsHost};

use crate::fate::Fate;
use crate::fuse::{Fuse, Left};
use crate::medium::{BLOCK, Medium};
use faults::Fault;

#[derive(Drop)]
pub struct MemoryMedium<'a> {
    bytes: &'a mut [u8],
    fuse: Fuse,
    // Kept: a flag beside the fuse, and neither tells the other: a dead medium takes a new fuse and stays dead.
    live: bool,
}

// Puts a block's bytes into block `block`.
fn store_block(bytes: &mut [u8], block: usize, new: &[u8; BLOCK])
    requires fits { block < fitting bytes.old }
    ensures blocks { blocks_of bytes.new ≡ slice_set (blocks_of bytes.old) block new.now }
    ensures rest { behind bytes.new ≡ behind bytes.old }
{
    let at = block * BLOCK;
    bytes[at..at + BLOCK].copy_from_slice(new);
}

// The bytes of block `block`.
fn load_block(bytes: &[u8], block: usize) -> &[u8; BLOCK]
    requires fits { block < fitting bytes.now }
    ensures { result.now ≡ slice_index_or (blocks_of bytes.now) block [] }
{
    bytes[block * BLOCK..].split_first_chunk().unwrap().0
}

impl<'a> MemoryMedium<'a> {
    // A live medium over the host's bytes, with no fuse.
    pub fn new(bytes: &'a mut [u8]) -> MemoryMedium<'a>
        ensures bytes { result.bytes.now ≡ bytes.old }
        ensures fuse { result.fuse ≡ Absent }
        ensures live { result.live ≡ true }
        ensures lent { result.bytes.ghost_name ≡ bytes.entry.ghost_name }
    {
        MemoryMedium {
            bytes,
            fuse: Fuse::Absent,
            live: true,
        }
    }

    // Lets `writes` more writes pass; the next one dies and leaves its block as said.
    pub fn set_fuse(&mut self, writes: u64, left: Left)
        ensures same { memory self.new ≡ memory self.old }
        ensures host { KeepsHost self.old self.new }
        ensures fuse { self.new.fuse ≡ Armed writes left }
    {
        self.fuse = Fuse::Armed(writes, left);
    }

    // The checks of a call ahead of the power: the block is there, and the bytes are as long as a block. Gives them as one.
    fn checked<'b>(&self, block: usize, bytes: &'b [u8]) -> Result<&'b [u8; BLOCK], Fault>
        ensures answer { refusal result ≡ read_fault (memory self.now) block bytes.now }
        ensures bytes { IfOk result (λ d. d.now ≡ bytes.now) }
    {
        if block >= self.count() {
            return Err(Fault::NoSuchBlock(block));
        }
        bytes.as_array().ok_or(Fault::WrongLength(bytes.len()))
    }

    // Carries out a write that is allowed, with the fate that the fuse gives it.
    fn carry_out(&mut self, block: usize, new: &[u8; BLOCK]) -> Result<(), Fault>
        requires begins { begins (memory self.old) block new.now ≡ true }
        ensures wrote { WroteBy (fate_of self.old.fuse) (memory self.old) block new.now (refusal result) (memory self.new) }
        ensures host { KeepsHost self.old self.new }
        ensures fuse { self.new.fuse ≡ burnt self.old.fuse }
    {
        let fate = self.fuse.fate();
        self.fuse = self.fuse.burnt();
        if fate.lands() {
            store_block(self.bytes, block, new);
        }
        if fate.dies() {
            self.live = false;
            return Err(Fault::PowerLost(block));
        }
        Ok(())
    }
}

impl<'a> Medium for MemoryMedium<'a> {
    ghost model = { memory };

    fn count(&self) -> usize {
        self.bytes.len() / BLOCK
    }

    fn read(&self, block: usize, buffer: &mut [u8]) -> Result<(), Fault> {
        self.checked(block, buffer)?;
        buffer.copy_from_slice(load_block(self.bytes, block));
        Ok(())
    }

    fn write(&mut self, block: usize, data: &[u8]) -> Result<(), Fault>
        ensures wrote { Wrote (memory self.old) block «data».now (refusal result) (memory self.new) }
        ensures fated { WroteBy (fate_of self.old.fuse) (memory self.old) block «data».now (refusal result) (memory self.new) }
        ensures host { KeepsHost self.old self.new }
        ensures fuse { self.new.fuse ≡ (if begins (memory self.old) block «data».now then burnt self.old.fuse else self.old.fuse) }
    {
        let bytes = self.checked(block, data)?;
        if !self.live {
            return Err(Fault::PowerLost(block));
        }
        self.carry_out(block, bytes)
    }

    fn power_on(&mut self)
        ensures after { memory self.new ≡ powered (memory self.old) }
        ensures host { KeepsHost self.old self.new }
        ensures fuse { self.new.fuse ≡ renewed self.old.fuse }
    {
        self.fuse = self.fuse.renewed();
        self.live = true;
    }
}
