// Some blocks of another medium, counted from 0 again.
ghost use Rattle.std.specs.Prelude.{◌≡◌, ℕ, ◌+◌, ◌^◌, ◌<◌, ◌≤◌, MatchResult};
ghost use Rattle.faults.specs.declared.fault.Fault.TheVariants.{NoSuchBlock};
ghost use Rattle.faults.specs.Faults.{refusal, report};
ghost use Rattle.media.specs.Media.{Whole, Wrote, powered, block_count};
ghost use Rattle.media.specs.Parts.{part, retell, SameOutside};

use crate::medium::Medium;
use faults::Fault;

// Blocks `first` to `first + blocks - 1` of a medium.
#[derive(Drop)]
pub struct Partition<M> {
    medium: M,
    first: usize,
    blocks: usize,
}

impl<M: Medium> Partition<M> {
    // The partition of `blocks` blocks from block `first` of a medium on.
    pub fn new(medium: M, first: usize, blocks: usize) -> Partition<M>
        ensures medium { result.medium ≡ medium }
        ensures first { result.first ≡ first }
        ensures blocks { result.blocks ≡ blocks }
    {
        Partition {
            medium,
            first,
            blocks,
        }
    }

    // Hands back the medium.
    pub fn into_medium(self) -> M
        ensures { result ≡ self.medium }
    {
        let Partition {
            medium,
            first: _,
            blocks: _,
        } = self;
        medium
    }

    // How many blocks the partition has: none where the medium is too short for it.
    fn length(&self) -> usize
        ensures count { result ≡ block_count (part M.Medium.model self.now) }
        ensures whole { Whole (part M.Medium.model self.now) }
        ensures room { (b : ℕ) → b < result → self.now.first + b < 2 ^ 64 }
    {
        let count = self.medium.count();
        match self.first.checked_add(self.blocks) {
            Some(end) if end <= count => self.blocks,
            _ => 0,
        }
    }

    // The block of the medium below that stands for a block of the partition.
    fn below(&self, block: usize) -> Result<usize, Fault>
        ensures { MatchResult result (λ b. (b ≡ self.now.first + block) × (block < block_count (part M.Medium.model self.now))) (λ f. (report f ≡ report (NoSuchBlock block)) × (block_count (part M.Medium.model self.now) ≤ block)) }
    {
        if block >= self.length() {
            return Err(Fault::NoSuchBlock(block));
        }
        Ok(self.first + block)
    }
}

// A fault of the medium below, where a lost block is told as the partition counts it.
fn retold(fault: Fault, block: usize) -> Fault
    ensures { report result ≡ retell block (report fault) }
{
    match fault {
        Fault::PowerLost(_) => Fault::PowerLost(block),
        other => other,
    }
}

impl<M: Medium> Medium for Partition<M> {
    ghost model = { part M.Medium.model };

    fn count(&self) -> usize {
        self.length()
    }

    fn read(&self, block: usize, buffer: &mut [u8]) -> Result<(), Fault> {
        self.medium.read(self.below(block)?, buffer)
    }

    fn write(&mut self, block: usize, data: &[u8]) -> Result<(), Fault>
        ensures wrote { Wrote (part M.Medium.model self.old) block «data».now (refusal result) (part M.Medium.model self.new) }
        ensures outside { SameOutside self.old.first self.old.blocks (M.Medium.model self.old.medium) (M.Medium.model self.new.medium) }
        ensures first { self.new.first ≡ self.old.first }
        ensures blocks { self.new.blocks ≡ self.old.blocks }
    {
        let below = self.below(block)?;
        self.medium
            .write(below, data)
            .map_err(|fault| retold(fault, block))
    }

    fn power_on(&mut self)
        ensures after { part M.Medium.model self.new ≡ powered (part M.Medium.model self.old) }
        ensures below { M.Medium.model self.new.medium ≡ powered (M.Medium.model self.old.medium) }
        ensures first { self.new.first ≡ self.old.first }
        ensures blocks { self.new.blocks ≡ self.old.blocks }
    {
        self.medium.power_on();
    }
}
