// Groups of pages, and the groups directly before a group.
ghost use Rattle.std.specs.Prelude.{◌≡◌, ℕ, ◌<◌, true};
ghost use Rattle.sets.specs.Sets.{has, Meet, SetOf};
ghost use Rattle.redo.specs.WriteGraph.{Dirty, SameGroup, DirectlyBefore, GroupCount};
ghost use Rattle.graph.specs.Ops.{dirty_ops, Pages, LowestPages};
ghost use Rattle.graph.specs.Rows.{row as row_of, SomeBelow, mutual_reach, InGroupOf, LeadsGroup};

use crate::arrows::arrows;
use crate::closure::closed;
use crate::op::Op;
use crate::rows::{pages_where, row};

// The dirty pages.
pub fn dirty(ops: &[Op]) -> u64
    ensures { Pages result (Dirty (dirty_ops ops.now)) }
{
    ops.iter().fold(0, |pages, o| sets::union(pages, o.writes))
}

// The pages whose rows meet the set.
fn sources(rows: &[u64; 64], set: u64) -> u64
    ensures { Pages result (λ q. Meet (row_of rows.now q) set) }
{
    pages_where(|p| sets::meet(row(rows, p), set))
}

// The pages that a page reaches and that reach it.
fn group_in(reach: &[u64; 64], page: u32) -> u64
    ensures { SetOf result (mutual_reach reach.now page) }
{
    let to = row(reach, page);
    let from = sources(reach, sets::single(page));
    sets::common(to, from)
}

// The group of page p, if p is in the set.
fn group_if(reach: &[u64; 64], set: u64, p: u32) -> u64
    ensures { Pages result (λ q. InGroupOf reach.now set q p) }
{
    if sets::contains(set, p) {
        group_in(reach, p)
    } else {
        0
    }
}

// The pages of the groups of all pages of the set.
fn groups_of(reach: &[u64; 64], set: u64) -> u64
    ensures { Pages result (λ q. SomeBelow 64 (InGroupOf reach.now set q)) }
{
    (0..64).fold(0, |pages, p| sets::union(pages, group_if(reach, set, p)))
}

// The lowest page of each group.
fn leaders(reach: &[u64; 64]) -> u64
    ensures { Pages result (λ q. SomeBelow 64 (λ p. (q ≡ p) × LeadsGroup reach.now p)) }
{
    pages_where(|p| sets::lowest(group_in(reach, p)) == p)
}

// The group of a page: empty if the page is clean.
pub fn group(ops: &[Op], page: u32) -> u64
    ensures pages { Pages result (λ q. SameGroup (dirty_ops ops.now) q page) }
    ensures clean { (Dirty (dirty_ops ops.now) page → ⊥) → result ≡ 0 }
{
    let table = arrows(ops);
    let all = closed(table);
    group_in(&all, page)
}

// All pages in groups directly before the group of a page: none if the page is clean.
pub fn before(ops: &[Op], page: u32) -> u64
    ensures pages { Pages result (λ q. DirectlyBefore (dirty_ops ops.now) q page) }
    ensures clean { (Dirty (dirty_ops ops.now) page → ⊥) → result ≡ 0 }
{
    let table = arrows(ops);
    let reach = closed(table);
    let group = group_in(&reach, page);
    let from = sets::without(sources(&table, group), group);
    groups_of(&reach, from)
}

// The lowest page of each group.
pub fn lowest_pages(ops: &[Op]) -> u64
    ensures { LowestPages (dirty_ops ops.now) result }
{
    let table = arrows(ops);
    let reach = closed(table);
    leaders(&reach)
}

// How many groups there are.
pub fn group_count(ops: &[Op]) -> u32
    ensures { GroupCount (dirty_ops ops.now) result }
{
    sets::size(lowest_pages(ops))
}
