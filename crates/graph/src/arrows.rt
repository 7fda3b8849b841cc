// Arrows between pages: row a of the table is the set of the pages that arrows lead to from page a.
ghost use Rattle.std.specs.Prelude.{◌≡◌, ℕ, ◌<◌, true, ◌&&◌, ◌||◌, length, Decides};
ghost use Rattle.sets.specs.Sets.{has, SetOf};
ghost use Rattle.redo.specs.WriteGraph.{Arrow, Dirty};
ghost use Rattle.graph.specs.Ops.{dirty_ops, Pages};
ghost use Rattle.graph.specs.Rows.{leads, SomeBelow, ReadsFirst, Hit, Target};

use crate::op::Op;
use crate::rows::{grown, renew};

// Whether o is earlier than p and reads a page that p writes.
fn reads_before(o: Op, p: Op) -> bool
    ensures { Decides result (ReadsFirst o p) }
{
    o.number < p.number && sets::meet(o.reads, p.writes)
}

// The pages that p writes, if o reads before p.
fn hit(o: Op, p: Op) -> u64
    ensures { Pages result (λ b. ReadsFirst o p × (has p.writes b ≡ true)) }
{
    if reads_before(o, p) { p.writes } else { 0 }
}

// The pages that operations write that o reads before.
fn later(ops: &[Op], o: Op) -> u64
    ensures { Pages result (λ b. SomeBelow (length ops.now) (Hit ops.now o b)) }
{
    ops.iter()
        .fold(0, |pages, p| sets::union(pages, hit(o, *p)))
}

// The pages that arrows lead to from each page that o writes.
fn targets(ops: &[Op], o: Op) -> u64
    ensures { Pages result (λ b. Target ops.now o b) }
{
    sets::union(o.writes, later(ops, o))
}

// Adds the arrows from each page of `from` to each page of `to`.
fn spread(rows: &mut [u64; 64], from: u64, to: u64)
    ensures { (a b : ℕ) → a < 64 → leads rows.new a b ≡ (leads rows.old a b || (has from a && has to b)) }
{
    renew(rows, |a, row| grown(row, a, from, to));
}

// The arrows of dirty operations.
pub fn arrows(ops: &[Op]) -> [u64; 64]
    ensures made { (a b : ℕ) → Decides (leads result a b) (Arrow (dirty_ops ops.now) a b) }
    ensures within { (p : ℕ) → Dirty (dirty_ops ops.now) p → p < 64 }
{
    let mut rows = [0u64; 64];
    for o in ops {
        let to = targets(ops, *o);
        spread(&mut rows, o.writes, to);
    }
    rows
}
