// Sets of the 64 pages: bit p of a u64 stands for page p.
ghost use Rattle.std.specs.Prelude.{◌≡◌, not, ◌&&◌, ◌||◌, Decides, ◌==◌, nat_lt};
ghost use Rattle.sets.specs.Sets.{has, differs, SetOf, Meet, NextPage};
ghost use Rattle.sets.specs.Sets.{size as size_of, lowest as lowest_of};

// Whether page p is in the set s.
pub fn contains(s: u64, p: u32) -> bool
    ensures { result ≡ has s p }
{
    if p >= 64 {
        return false;
    }
    (s >> p) % 2 == 1
}

// The pages that are in s, in t or in both.
pub fn union(s: u64, t: u64) -> u64
    ensures { SetOf result (λ p. has s p || has t p) }
{
    s | t
}

// The pages that are in both.
pub fn common(s: u64, t: u64) -> u64
    ensures { SetOf result (λ p. has s p && has t p) }
{
    s & t
}

// The pages of s that are not in t.
pub fn without(s: u64, t: u64) -> u64
    ensures { SetOf result (λ p. has s p && not (has t p)) }
{
    s & !t
}

// The pages that are in one of the two and not in both.
pub fn toggle(s: u64, t: u64) -> u64
    ensures { SetOf result (λ p. differs (has s p) (has t p)) }
{
    s ^ t
}

// The set of page p alone; the empty set where there is no such page.
pub fn single(p: u32) -> u64
    ensures { SetOf result (λ q. (q == p) && nat_lt p 64) }
{
    if p >= 64 {
        return 0;
    }
    1 << p
}

// Whether some page is in both.
pub fn meet(s: u64, t: u64) -> bool
    ensures { Decides result (Meet s t) }
{
    let both = t & s;
    both != 0
}

// How many pages s has.
pub fn size(s: u64) -> u32
    ensures { result ≡ size_of s }
{
    s.count_ones()
}

// The lowest page of s; 64 where s is empty.
// Kept: 64 in place of an Option: a set is a 64-bit number, and its lowest page the count of its trailing zeros.
pub fn lowest(s: u64) -> u32
    ensures { result ≡ lowest_of s }
{
    s.trailing_zeros()
}

// The lowest page of s from page p on. From 0 on, and each time from one past it, this goes through the pages of s, rising.
pub fn next_page(s: u64, p: u32) -> Option<u32>
    ensures { NextPage s p result }
{
    let above = s.checked_shr(p)?.trailing_zeros();
    (above < 64).then_some(p + above)
}
