// Tables of rows: row a is the set of the pages that page a leads to.
ghost use Rattle.std.specs.Prelude.{◌≡◌, ℕ, ◌<◌, true, ◌&&◌, ◌||◌};
ghost use Rattle.sets.specs.Sets.{has, SetOf};
ghost use Rattle.graph.specs.Rows.{row as row_of};

// The row of a page; the empty set where there is no such page.
pub fn row(rows: &[u64; 64], page: u32) -> u64
    ensures { result ≡ row_of rows.now page }
{
    rows.get(page as usize).copied().unwrap_or(0)
}

// The row, with the pages of `to` if page a is in `from`.
pub fn grown(row: u64, a: u32, from: u64, to: u64) -> u64
    ensures { SetOf result (λ b. has row b || (has from a && has to b)) }
{
    if sets::contains(from, a) {
        sets::union(row, to)
    } else {
        row
    }
}

// The pages that pass the test.
pub fn pages_where<F: Fn(u32) -> bool>(test: F) -> u64
    requires { F.IsAlwaysCallable test }
    ensures within { (p : ℕ) → has result p ≡ true → p < 64 }
    ensures tested { (p : ℕ) → p < 64 → F.post test p (has result p) }
{
    let mut pages = 0;
    for p in 0..64u32 {
        if test(p) {
            pages = sets::union(pages, sets::single(p));
        }
    }
    pages
}

// Makes each row what `next` gives for its page and the row as it was.
pub fn renew<F: Fn(u32, u64) -> u64>(rows: &mut [u64; 64], next: F)
    requires { F.IsAlwaysCallable next }
    ensures { (a : ℕ) → a < 64 → F.post next a (row_of rows.old a) (row_of rows.new a) }
{
    for (a, row) in rows.iter_mut().enumerate() {
        *row = next(a as u32, *row);
    }
}
