// Reach by Warshall's closure: page after page is let in between.
ghost use Rattle.std.specs.Prelude.{◌≡◌, ℕ, ◌<◌, ◌&&◌, ◌||◌};
ghost use Rattle.redo.specs.Closure.{via, pages_below};
ghost use Rattle.graph.specs.Rows.{leads};

use crate::rows::{grown, renew, row};

// Lets page k in between.
fn let_in(rows: &mut [u64; 64], k: u32)
    ensures { (a b : ℕ) → a < 64 → leads rows.new a b ≡ (leads rows.old a b || (leads rows.old a k && leads rows.old k b)) }
{
    let through = row(rows, k);
    renew(rows, |_, row| grown(row, k, row, through));
}

// What reaches what, from a table of arrows.
pub fn closed(arrows: [u64; 64]) -> [u64; 64]
    ensures { (a b : ℕ) → a < 64 → leads result a b ≡ via (leads arrows) (pages_below 64) a b }
{
    let mut rows = arrows;
    for k in 0..64u32 {
        let_in(&mut rows, k);
    }
    rows
}
