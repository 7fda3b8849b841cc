// What the waiting blocks are, and how they come and go.
ghost use Rattle.std.specs.Prelude.{◌≡◌, [], length, drop, is_ok, slice_get};
ghost use Rattle.std.specs.Slice.{IsItemAt};
ghost use Rattle.std.specs.Option.{option_copied};
ghost use Rattle.tables.specs.Waiting.{waiting, room, pushed};

use crate::Full;
use crate::waiting::Waiting;
use arrayvec::ArrayVec;

impl Waiting {
    // No block waits.
    pub fn none() -> Waiting
        ensures { waiting result ≡ [] }
    {
        Waiting {
            blocks: ArrayVec::new(),
        }
    }

    // The blocks that wait.
    pub fn list(&self) -> &[[u8; 256]]
        ensures { result.now ≡ waiting self.now }
    {
        self.blocks.as_slice()
    }

    // How many blocks wait.
    pub fn len(&self) -> usize
        ensures { result ≡ length (waiting self.now) }
    {
        self.blocks.len()
    }

    // Puts a block behind those that wait; refuses it, and nothing is put, where sixteen wait already.
    pub fn push(&mut self, block: &[u8; 256]) -> Result<(), Full>
        ensures fits { is_ok result ≡ room (waiting self.old) }
        ensures after { waiting self.new ≡ pushed (waiting self.old) block.now }
    {
        self.blocks.try_push(*block).map_err(|_| Full)
    }

    // The i-th of the waiting blocks; none where fewer wait.
    pub fn get(&self, i: usize) -> Option<&[u8; 256]>
        ensures value { option_copied result ≡ slice_get (waiting self.now) i }
        ensures item { IsItemAt (waiting self.now) i result }
    {
        self.blocks.get(i)
    }

    // Takes away the first n blocks, or all where fewer wait.
    pub fn drop_front(&mut self, n: usize)
        ensures { waiting self.new ≡ drop n (waiting self.old) }
    {
        let gone = n.min(self.len());
        drop(self.blocks.drain(..gone));
    }
}
