// A medium of a maker's own, which holds its one block in an array: the contract of media asks no more than what such a chip can promise.
ghost use Rattle.std.specs.Prelude.{[], ◌∷◌};

use faults::Fault;
use media::{BLOCK, Medium};
use stores::{JournalStore, PageStore};

#[derive(Drop)]
struct ArrayChip {
    block: [u8; BLOCK],
    live: bool,
}

impl Medium for ArrayChip {
    ghost model = { λ m. record { blocks = m.block ∷ []; live = m.live } };

    fn count(&self) -> usize {
        1
    }

    fn read(&self, block: usize, buffer: &mut [u8]) -> Result<(), Fault> {
        if block >= 1 {
            return Err(Fault::NoSuchBlock(block));
        }
        if buffer.len() != BLOCK {
            return Err(Fault::WrongLength(buffer.len()));
        }
        buffer.copy_from_slice(&self.block);
        Ok(())
    }

    fn write(&mut self, block: usize, data: &[u8]) -> Result<(), Fault> {
        if block >= 1 {
            return Err(Fault::NoSuchBlock(block));
        }
        if data.len() != BLOCK {
            return Err(Fault::WrongLength(data.len()));
        }
        if !self.live {
            return Err(Fault::PowerLost(block));
        }
        self.block.copy_from_slice(data);
        Ok(())
    }

    fn power_on(&mut self) {
        self.live = true;
    }
}

#[test]
fn a_store_on_a_chip_of_one_block_is_short(rt: HostRuntime) {
    let mut chip = ArrayChip {
        block: [0; BLOCK],
        live: false,
    };
    assert_eq!(rt; chip.write(0, &[5; BLOCK]), Err(Fault::PowerLost(0)));
    chip.power_on();
    assert_eq!(rt; chip.write(0, &[5; BLOCK]), Ok(()));
    let mut block = [0; BLOCK];
    assert_eq!(rt; chip.read(0, &mut block), Ok(()));
    assert_eq!(rt; block[255], 5);
    let store = JournalStore::new(chip);
    assert_eq!(rt; store.read(0, &mut block), Err(Fault::TooShort));
    assert_eq!(rt; block[255], 5, "the buffer is left");
}
