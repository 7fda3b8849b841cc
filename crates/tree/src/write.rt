// Pages written front to back.
ghost use Rattle.std.specs.Prelude.{◌≡◌, ◌+◌, ◌-◌, ◌*◌, ◌≤◌, ◌++◌, length, take, drop, replicate};
ghost use Rattle.sets.specs.Words.{part};
ghost use Rattle.tree.specs.Nodes.{count as count_of, head_of, entry_bytes};
ghost use Rattle.tree.specs.Views.{pair};

use crate::entries::{Entry, count};
use crate::forms::HALF;
use kinds::CONTENTS;
use std::ops::Range;

// Where the entries end, and where the lower half of them does.
const END: usize = 212;

const MIDDLE: usize = 108;

// Writes bytes from place `at` on, behind what was written before.
fn place(new: &mut [u8], at: usize, bytes: &[u8])
    requires { at + length bytes.now ≤ length new.old }
    ensures { take (at + length bytes.now) new.new ≡ take at new.old ++ bytes.now }
{
    new[at..at + bytes.len()].copy_from_slice(bytes);
}

// Writes a page's first four bytes.
fn place_head(new: &mut [u8], mark: u8, n: u8)
    requires { 4 ≤ length new.old }
    ensures { take 4 new.new ≡ head_of mark n }
{
    let head = [mark, n, 0, 0];
    place(new, 0, &head);
}

// Writes an entry.
fn place_entry(new: &mut [u8], at: usize, entry: Entry)
    requires { at + 8 ≤ length new.old }
    ensures { take (at + 8) new.new ≡ take at new.old ++ entry_bytes (pair entry) }
{
    let word = entry.key.to_le_bytes();
    place(new, at, &word);
    let word = entry.value.to_le_bytes();
    place(new, at + 4, &word);
}

// Kept: here and in the steps, slices whose lengths are asked, old and new apart: Kind::effect gets these two, and arrays take twelve unwraps.

// Writes a page with an entry in place of the entries of a range: of one, or of none.
pub(crate) fn splice(old: &[u8], new: &mut [u8], mark: u8, range: Range<usize>, entry: Entry)
    requires lengths { (length old.now ≡ 224) × (length new.old ≡ 224) }
    requires order { (range.start ≤ range.end) × (range.end ≤ range.start + 1) }
    requires within { (range.end ≤ count_of old.now) × (count_of old.now + 1 ≤ 26 + (range.end - range.start)) }
    ensures { let m = count_of old.now + 1 - (range.end - range.start) in new.new ≡ head_of mark m ++ (part 4 (8 * range.start) old.now ++ (entry_bytes (pair entry) ++ (part (4 + 8 * range.end) (8 * (count_of old.now - range.end)) old.now ++ drop (4 + 8 * m) old.now))) }
{
    let n = count(old);
    let Range { start, end } = range;
    let m = n + 1 - (end - start);
    place_head(new, mark, m as u8);
    place(new, 4, &old[4..4 + 8 * start]);
    place_entry(new, 4 + 8 * start, entry);
    place(new, 12 + 8 * start, &old[4 + 8 * end..4 + 8 * n]);
    place(new, 4 + 8 * m, &old[4 + 8 * m..CONTENTS]);
}

// Writes a fresh leaf of 13 entries from entry `from` on.
pub(crate) fn halve(old: &[u8], new: &mut [u8], from: usize)
    requires { (length old.now ≡ 224) × ((length new.old ≡ 224) × (from ≤ 13)) }
    ensures { new.new ≡ head_of 1 13 ++ (part (4 + 8 * from) 104 old.now ++ replicate 116 0) }
{
    place_head(new, 1, HALF as u8);
    place(new, 4, &old[4 + 8 * from..MIDDLE + 8 * from]);
    let zeros = [0u8; 116];
    place(new, MIDDLE, &zeros);
}

// Writes a leaf that keeps the lower half of its entries.
pub(crate) fn shrink(old: &[u8], new: &mut [u8])
    requires { (length old.now ≡ 224) × (length new.old ≡ 224) }
    ensures { new.new ≡ head_of 1 13 ++ (part 4 104 old.now ++ (replicate 104 0 ++ drop 212 old.now)) }
{
    place_head(new, 1, HALF as u8);
    place(new, 4, &old[4..MIDDLE]);
    let zeros = [0u8; 104];
    place(new, MIDDLE, &zeros);
    place(new, END, &old[END..CONTENTS]);
}

// Writes a root of two entries over pages 1 and 2.
pub(crate) fn plant(old: &[u8], new: &mut [u8], least: u32, middle: u32)
    requires { (length old.now ≡ 224) × (length new.old ≡ 224) }
    ensures { new.new ≡ head_of 2 2 ++ (entry_bytes (least, 1) ++ (entry_bytes (middle, 2) ++ (replicate 192 0 ++ drop 212 old.now))) }
{
    let low = Entry {
        key: least,
        value: 1,
    };
    let high = Entry {
        key: middle,
        value: 2,
    };
    place_head(new, 2, 2);
    place_entry(new, 4, low);
    place_entry(new, 12, high);
    let zeros = [0u8; 192];
    place(new, 20, &zeros);
    place(new, END, &old[END..CONTENTS]);
}
