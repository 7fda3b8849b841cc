// Small situations, run.
use crate::op::Op;
use crate::{before, dirty, group, group_count, lowest_pages};
use sets::{single, union};

fn fill(number: u32, page: u32) -> Op {
    Op {
        number,
        reads: 0,
        writes: single(page),
    }
}

fn copy(number: u32, from: u32, to: u32) -> Op {
    Op {
        number,
        reads: single(from),
        writes: single(to),
    }
}

#[test]
fn copied_page_first(rt: HostRuntime) {
    let ops = [fill(1, 40), copy(2, 40, 41), fill(3, 40)];
    assert_eq!(rt; group(&ops, 40), single(40));
    assert_eq!(rt; before(&ops, 40), single(41));
    assert_eq!(rt; group(&ops, 41), single(41));
    assert_eq!(rt; before(&ops, 41), 0);
    assert_eq!(rt; group(&ops, 42), 0);
    assert_eq!(rt; dirty(&ops), union(single(40), single(41)));
    assert_eq!(rt; group_count(&ops), 2);
}

#[test]
fn copies_both_ways(rt: HostRuntime) {
    let ops = [copy(1, 40, 41), copy(2, 41, 40), fill(3, 41)];
    let both = union(single(40), single(41));
    assert_eq!(rt; before(&ops[0..2], 40), single(41));
    assert_eq!(rt; group(&ops, 40), both);
    assert_eq!(rt; before(&ops, 40), 0);
    assert_eq!(rt; lowest_pages(&ops), single(40));
    assert_eq!(rt; group_count(&ops), 1);
}
