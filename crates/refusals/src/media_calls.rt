// The memory medium, its fuse, and partitions.
use faults::Fault;
use media::{BLOCK, Left, Medium, MemoryMedium, Partition};

#[test]
fn as_many_blocks_as_fit(rt: HostRuntime) {
    let mut none = [0u8; 0];
    assert_eq!(rt; MemoryMedium::new(&mut none).count(), 0);
    let mut short = [0u8; 255];
    assert_eq!(rt; MemoryMedium::new(&mut short).count(), 0);
    let mut long = [0u8; 257];
    assert_eq!(rt; MemoryMedium::new(&mut long).count(), 1);
    let mut chip = [0u8; 33297];
    assert_eq!(rt; MemoryMedium::new(&mut chip).count(), 130);
}

#[test]
fn bytes_behind_the_last_block_stay(rt: HostRuntime) {
    let mut chip = [9u8; 33297];
    assert_eq!(rt;
        MemoryMedium::new(&mut chip).write(129, &[5u8; BLOCK]),
        Ok(())
    );
    let fives = chip[33024..33280].iter().filter(|byte| **byte == 5).count();
    let nines = chip[33280..].iter().filter(|byte| **byte == 9).count();
    assert_eq!(rt; fives, 256);
    assert_eq!(rt; nines, 17);
}

#[test]
fn reading_checks_block_then_length(rt: HostRuntime) {
    let mut bytes = [1u8; 512];
    let medium = MemoryMedium::new(&mut bytes);
    let mut odd = [7u8; 255];
    assert_eq!(rt; medium.read(2, &mut odd), Err(Fault::NoSuchBlock(2)));
    assert_eq!(rt; medium.read(1, &mut odd), Err(Fault::WrongLength(255)));
    assert_eq!(rt; odd[0], 7, "the buffer is left");
    let mut empty = [0u8; 0];
    assert_eq!(rt; medium.read(0, &mut empty), Err(Fault::WrongLength(0)));
    let mut wide = [7u8; 257];
    assert_eq!(rt; medium.read(0, &mut wide), Err(Fault::WrongLength(257)));
    let mut block = [7u8; BLOCK];
    assert_eq!(rt; medium.read(1, &mut block), Ok(()));
    assert_eq!(rt; block[255], 1);
}

#[test]
fn writing_checks_block_length_then_power(rt: HostRuntime) {
    let mut bytes = [0u8; 512];
    let mut medium = MemoryMedium::new(&mut bytes);
    medium.set_fuse(0, Left::Old);
    assert_eq!(rt; medium.write(2, &[1u8; 255]), Err(Fault::NoSuchBlock(2)));
    assert_eq!(rt; medium.write(1, &[1u8; 257]), Err(Fault::WrongLength(257)));
    assert_eq!(rt; medium.write(1, &[1u8; BLOCK]), Err(Fault::PowerLost(1)));
    assert_eq!(rt;
        medium.write(0, &[1u8; BLOCK]),
        Err(Fault::PowerLost(0)),
        "a dead chip"
    );
    assert_eq!(rt;
        medium.write(1, &[1u8; 3]),
        Err(Fault::WrongLength(3)),
        "a dead chip, and a wrong length"
    );
    let mut block = [9u8; BLOCK];
    assert_eq!(rt; medium.read(1, &mut block), Ok(()));
    assert_eq!(rt; block[0], 0, "left old");
}

#[test]
fn a_fuse_burns_by_writes_that_are_carried_out(rt: HostRuntime) {
    let mut bytes = [0u8; 512];
    let mut medium = MemoryMedium::new(&mut bytes);
    medium.set_fuse(1, Left::New);
    assert_eq!(rt; medium.write(9, &[1u8; BLOCK]), Err(Fault::NoSuchBlock(9)));
    medium.power_on();
    assert_eq!(rt; medium.write(0, &[1u8; BLOCK]), Ok(()));
    assert_eq!(rt; medium.write(1, &[2u8; BLOCK]), Err(Fault::PowerLost(1)));
    medium.power_on();
    assert_eq!(rt;
        medium.write(0, &[3u8; BLOCK]),
        Ok(()),
        "power-on removes a blown fuse"
    );
    let mut block = [0u8; BLOCK];
    assert_eq!(rt; medium.read(1, &mut block), Ok(()));
    assert_eq!(rt; block[7], 2, "left new");
}

#[test]
fn a_partition_counts_its_own_blocks(rt: HostRuntime) {
    let mut bytes = [0u8; 1024];
    let mut chip = MemoryMedium::new(&mut bytes);
    chip.set_fuse(1, Left::Old);
    let mut part = Partition::new(chip, 1, 2);
    assert_eq!(rt; part.count(), 2);
    assert_eq!(rt; part.write(2, &[1u8; BLOCK]), Err(Fault::NoSuchBlock(2)));
    assert_eq!(rt; part.write(1, &[1u8; 9]), Err(Fault::WrongLength(9)));
    assert_eq!(rt; part.write(0, &[1u8; BLOCK]), Ok(()));
    assert_eq!(rt; part.write(1, &[1u8; BLOCK]), Err(Fault::PowerLost(1)));
    let chip = part.into_medium();
    let mut block = [9u8; BLOCK];
    assert_eq!(rt; chip.read(1, &mut block), Ok(()));
    assert_eq!(rt; block[0], 1);
    assert_eq!(rt; chip.read(0, &mut block), Ok(()));
    assert_eq!(rt; block[0], 0);
}

#[test]
fn a_partition_that_does_not_fit_has_no_block(rt: HostRuntime) {
    let mut bytes = [0u8; 1024];
    assert_eq!(rt;
        Partition::new(MemoryMedium::new(&mut bytes), 2, 3).count(),
        0
    );
    assert_eq!(rt;
        Partition::new(MemoryMedium::new(&mut bytes), usize::MAX, 2).count(),
        0
    );
    assert_eq!(rt;
        Partition::new(MemoryMedium::new(&mut bytes), 4, 0).count(),
        0
    );
    let part = Partition::new(MemoryMedium::new(&mut bytes), 2, 3);
    let mut block = [0u8; BLOCK];
    assert_eq!(rt; part.read(0, &mut block), Err(Fault::NoSuchBlock(0)));
}
