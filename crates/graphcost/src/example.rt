// Pages 40 and 41 are copied into each other, and one of them into page 42, before it is filled again.
use graph::Op;
use std::io;

// Kept: this and `copy` stand in graph's tests too; a crate for both would be longer than they are.
fn fill(number: u32, page: u32) -> Op {
    Op {
        number,
        reads: 0,
        writes: sets::single(page),
    }
}

fn copy(number: u32, from: u32, to: u32) -> Op {
    Op {
        number,
        reads: sets::single(from),
        writes: sets::single(to),
    }
}

// A line for each dirty page: the lowest page of its group, and how many pages come directly before.
fn line(rt: &HostRuntime, ops: &[Op], page: u32) -> io::Result<()> {
    let group = graph::group(ops, page);
    let lowest = sets::lowest(group);
    let size = sets::size(group);
    let before = sets::size(graph::before(ops, page));
    println!(rt;
        "page {page}: in the group of page {lowest}, size {size}, pages directly before it: {before}"
    )
}

pub fn show(rt: &HostRuntime) -> io::Result<()> {
    let ops = [
        copy(1, 40, 41),
        copy(2, 41, 40),
        fill(3, 41),
        copy(4, 40, 42),
        fill(5, 40),
    ];
    let dirty = graph::dirty(&ops);
    for page in 0..64u32 {
        if sets::contains(dirty, page) {
            line(rt, &ops, page)?;
        }
    }
    let count = graph::group_count(&ops);
    println!(rt; "groups: {count}")
}
