// Walks over listed operations.
ghost use Rattle.std.specs.Prelude.{◌≡◌};
ghost use Rattle.graph.specs.Listing.{writes_inside};
ghost use Rattle.tables.specs.DirtyOps.{counts, higher, highest_among};

use graph::Op;

// Whether o writes a page of the set.
pub(crate) fn writes_into(o: Op, set: u64) -> bool
    ensures { result ≡ writes_inside set o }
{
    sets::meet(o.writes, set)
}

// Whether o bears the number `from` or a higher one, and writes a page of the set.
fn is_counted(o: Op, set: u64, from: u32) -> bool
    ensures { result ≡ counts set from o }
{
    o.number >= from && writes_into(o, set)
}

// The higher of the best number so far and n.
fn raised(best: Option<u32>, n: u32) -> Option<u32>
    ensures { result ≡ higher best n }
{
    Some(best.map_or(n, |m| m.max(n)))
}

// The highest number, at or above `from`, of an operation that writes a page of the set.
pub fn highest(ops: &[Op], set: u64, from: u32) -> Option<u32>
    ensures { result ≡ highest_among set from ops.now }
{
    ops.iter()
        .filter(|o| is_counted(**o, set, from))
        .map(|o| o.number)
        .fold(None, |best, n| raised(best, n))
}
