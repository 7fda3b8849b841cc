// The journal store and the shadow store.
use faults::Fault;
use media::{Left, Medium, MemoryMedium};
use std::process::Abort;
use stores::{Journal, JournalStore, MediumStore, PageStore, Shadow, ShadowStore, Way};

// 129 blocks, and one block less.
const ENOUGH: usize = 33024;

const SHORT: usize = 32768;

const IMAGES: usize = 16384;

// Reads are checked for the page, then the length, then the store's length.
fn reads<S: PageStore>(rt: &impl Abort, short: &S, store: &S) {
    let mut odd = [7u8; 255];
    assert_eq!(rt; short.read(64, &mut odd), Err(Fault::NoSuchPage(64)));
    assert_eq!(rt; short.read(63, &mut odd), Err(Fault::WrongLength(255)));
    let mut image = [7u8; 256];
    assert_eq!(rt; short.read(63, &mut image), Err(Fault::TooShort));
    assert_eq!(rt; image[0], 7, "the buffer is left");
    assert_eq!(rt;
        store.read(4294967295, &mut image),
        Err(Fault::NoSuchPage(4294967295))
    );
    assert_eq!(rt; store.read(63, &mut image), Ok(()));
    assert_eq!(rt; image[0], 0);
}

// Installs are checked for the length of the images, then the store's length, then the power.
fn installs<S: PageStore>(rt: &impl Abort, short: &mut S, dead: &mut S, first: usize) {
    let images = [5u8; IMAGES];
    assert_eq!(rt; short.install(8, &[0u8; 255]), Err(Fault::WrongLength(255)));
    assert_eq!(rt; short.install(0, &images), Err(Fault::TooShort));
    assert_eq!(rt; dead.install(8, &images), Err(Fault::PowerLost(first)));
    assert_eq!(rt;
        dead.install(8, &images),
        Err(Fault::PowerLost(first)),
        "dead"
    );
    assert_eq!(rt;
        dead.install(0, &images),
        Ok(()),
        "an empty set writes nothing"
    );
    assert_eq!(rt; dead.install(8, &[0u8; 0]), Err(Fault::WrongLength(0)));
    let mut image = [7u8; 256];
    assert_eq!(rt;
        dead.read(3, &mut image),
        Ok(()),
        "reading works on a dead store"
    );
    assert_eq!(rt; image[4], 0);
    dead.power_on();
    assert_eq!(rt; dead.install(8, &images), Ok(()));
    assert_eq!(rt; dead.read(3, &mut image), Ok(()));
    assert_eq!(rt; image[227], 5);
    assert_eq!(rt; image[228], 0, "zeros from byte 228 on");
}

// Both, on a store of one block less and on a store that dies at its first write.
fn refuses_in_order<W: Way>(rt: &impl Abort) {
    let mut few = [0u8; SHORT];
    let mut many = [0u8; ENOUGH];
    let mut chip = MemoryMedium::new(&mut many);
    chip.set_fuse(0, Left::Old);
    let mut short: MediumStore<MemoryMedium, W> = MediumStore::new(MemoryMedium::new(&mut few));
    let mut store: MediumStore<MemoryMedium, W> = MediumStore::new(chip);
    reads(rt, &short, &store);
    installs(rt, &mut short, &mut store, 67);
}

#[test]
fn journal_store_refuses_in_order(rt: HostRuntime) {
    refuses_in_order::<Journal>(&rt);
}

#[test]
fn shadow_store_refuses_in_order(rt: HostRuntime) {
    refuses_in_order::<Shadow>(&rt);
}

#[test]
fn stores_need_129_blocks(rt: HostRuntime) {
    assert_eq!(rt; JournalStore::<MemoryMedium>::BLOCKS, 129);
    assert_eq!(rt; ShadowStore::<MemoryMedium>::BLOCKS, 129);
}
