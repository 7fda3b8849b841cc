// Bodies of the tree kind: a leaf is filled, split, and split again under its root.
use crate::bench::{Bench, Misfit, Row, play, play_with};
use std::io;
use tree::{TreeKind, Unsigned, search};

type Tree = TreeKind<Unsigned>;

const FIRST_SPLIT: [Row<'static>; 4] = [
    Row("lower half of 0 into 1", &[2, 0, 1]),
    Row("upper half of 0 into 2", &[3, 0, 2]),
    Row("leaf 0 to a root", &[5]),
    Row("root to a root", &[5]),
];

const SECOND_SPLIT: [Row<'static>; 5] = [
    Row("cut of a small leaf", &[4, 1, 3]),
    Row("upper half of 2 into 3", &[3, 2, 3]),
    Row("cut with a page left out", &[4, 2, 4]),
    Row("cut of 2, with 3 in the root", &[4, 2, 3]),
    Row("cut of 2 again", &[4, 2, 4]),
];

const BAD: [Row<'static>; 8] = [
    Row("empty body", &[]),
    Row("insert of nine bytes", &[1, 0, 1, 0, 0, 0, 1, 0, 0]),
    Row("insert into page 27", &[1, 27, 1, 0, 0, 0, 1, 0, 0, 0]),
    Row("lower half into itself", &[2, 1, 1]),
    Row("lower half into page 0", &[2, 1, 0]),
    Row("cut of page 0", &[4, 0, 1]),
    Row("grow of two bytes", &[5, 0]),
    Row("lower half of an empty leaf", &[2, 0, 1]),
];

const MISFITS: [Misfit<'static>; 2] = [
    Misfit(
        Row("insert into no leaf", &[1, 0, 1, 0, 0, 0, 1, 0, 0, 0]),
        224,
        224,
    ),
    Misfit(
        Row("insert, old of 223", &[1, 0, 1, 0, 0, 0, 1, 0, 0, 0]),
        223,
        224,
    ),
];

// A key and its value, for a leaf.
#[derive(Clone, Copy)]
struct Insert {
    page: u8,
    key: u32,
    value: u32,
}

impl Insert {
    fn body(self) -> [u8; 10] {
        let [k0, k1, k2, k3] = self.key.to_le_bytes();
        let [v0, v1, v2, v3] = self.value.to_le_bytes();
        [1, self.page, k0, k1, k2, k3, v0, v1, v2, v3]
    }

    fn run(self, rt: &HostRuntime, b: &mut Bench, name: &str) -> io::Result<()> {
        b.run::<Tree>(rt, name, &self.body())
    }
}

// Puts keys that rise by ten into a leaf.
fn fill(rt: &HostRuntime, b: &mut Bench, page: u8, first: u32, count: u32) -> io::Result<()> {
    for value in 0..count {
        let key = first.wrapping_add(value.wrapping_mul(10));
        Insert { page, key, value }.run(rt, b, "insert")?;
    }
    Ok(())
}

// What a key has in a leaf.
fn find(rt: &HostRuntime, b: &Bench, page: u8, key: u32) -> io::Result<()> {
    match b.page(page).and_then(|leaf| search(leaf, key)) {
        Some(value) => println!(rt; "leaf {page}, key {key}: {value}"),
        None => println!(rt; "leaf {page}, key {key}: absent"),
    }
}

const LEAF_0: [(&str, u32, u32); 3] = [
    ("insert before all", 5, 500),
    ("replace in a full leaf", 110, 999),
    ("insert into a full leaf", 7, 700),
];

pub fn table(rt: &HostRuntime) -> io::Result<()> {
    let mut b = Bench::new();
    play_with::<Tree>(rt, &mut b, &BAD, &MISFITS)?;
    fill(rt, &mut b, 0, 100, 25)?;
    for (name, key, value) in LEAF_0 {
        let page = 0;
        Insert { page, key, value }.run(rt, &mut b, name)?;
    }
    find(rt, &b, 0, 110)?;
    find(rt, &b, 0, 7)?;
    split(rt, &mut b)
}

// A full leaf 0 is split into leaves 1 and 2, and leaf 2 later into 2 and 3.
fn split(rt: &HostRuntime, b: &mut Bench) -> io::Result<()> {
    play::<Tree>(rt, b, &FIRST_SPLIT)?;
    find(rt, b, 1, 5)?;
    find(rt, b, 2, 340)?;
    fill(rt, b, 2, 1000, 13)?;
    play::<Tree>(rt, b, &SECOND_SPLIT)?;
    find(rt, b, 2, 1000)?;
    find(rt, b, 3, 1000)
}
