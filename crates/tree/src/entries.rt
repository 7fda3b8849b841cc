// The entries of a page, read from its contents. Bytes past the end of a slice read as zero.
ghost use Rattle.std.specs.Prelude.{◌≡◌, ◌+◌, ◌*◌, ◌≤◌, false, slice_index, drop};
ghost use Rattle.std.specs.Iterator.{item_count, YieldsFirstBy};
ghost use Rattle.sets.specs.Words.{number, part};
ghost use Rattle.tree.specs.Nodes.{count as count_of, entries, find, absent as absent_of, rising as rising_of, fresh as fresh_of, before as before_of};
ghost use Rattle.tree.specs.Views.{pair, left};

use crate::order::KeyOrder;
use sets::{Number, contains, single, union};

// A key with its value.
#[derive(Clone, Copy, PartialEq, Eq, Debug)]
pub(crate) struct Entry {
    pub key: u32,
    pub value: u32,
}

impl Entry {
    // The entry in the first eight of some bytes.
    fn first(bytes: &[u8]) -> Entry
        ensures { pair result ≡ (number (part 0 4 bytes.now), number (part 4 4 bytes.now)) }
    {
        Entry {
            key: u32::read_at(bytes, 0),
            value: u32::read_at(bytes, 4),
        }
    }
}

// The byte at a place.
pub fn byte(c: &[u8], at: usize) -> u8
    ensures { result ≡ slice_index c.now at }
{
    c.get(at).copied().unwrap_or(0)
}

// How many entries there are.
pub fn count(c: &[u8]) -> usize
    ensures { result ≡ count_of c.now }
{
    usize::from(byte(c, 1))
}

// The key of entry i.
pub(crate) fn key_at(c: &[u8], i: usize) -> u32
    requires { i ≤ 255 }
    ensures { result ≡ number (part (4 + 8 * i) 4 c.now) }
{
    u32::read_at(c, 4 + 8 * i)
}

// Bytes without the first n of them.
fn past(bytes: &[u8], n: usize) -> &[u8]
    ensures { result.now ≡ drop n bytes.now }
{
    bytes.get(n..).unwrap_or(&[])
}

// The entry in the first eight of some bytes, and the bytes behind it. Of an array the length is known, which makes the reading short.
fn split_entry(bytes: &[u8]) -> (Entry, &[u8])
    ensures entry { pair result.0 ≡ (number (part 0 4 bytes.now), number (part 4 4 bytes.now)) }
    ensures rest { result.1.now ≡ drop 8 bytes.now }
{
    match bytes.split_first_chunk::<8>() {
        Some((head, rest)) => (Entry::first(head), rest),
        None => (Entry::first(bytes), &[]),
    }
}

// Entries that are still to read.
#[derive(Drop)]
pub(crate) struct Entries<'a> {
    bytes: &'a [u8],
    count: u8,
}

impl<'a> Entries<'a> {
    // The entries of a page.
    pub(crate) fn of(c: &'a [u8]) -> Entries<'a>
        ensures { left result ≡ entries c.now }
    {
        Entries {
            bytes: past(c, 4),
            count: byte(c, 1),
        }
    }
}

impl Iterator for Entries<'_> {
    type Item = Entry;

    ghost next_gives = { YieldsFirstBy pair left };

    ghost remaining = { item_count left };

    fn next(&mut self) -> Option<Entry> {
        self.count = self.count.checked_sub(1)?;
        let (entry, rest) = split_entry(self.bytes);
        self.bytes = rest;
        Some(entry)
    }
}

// The value of a key among the entries of a page.
pub fn search(c: &[u8], key: u32) -> Option<u32>
    ensures { result ≡ find key (entries c.now) }
{
    Entries::of(c)
        .find(|entry| entry.key == key)
        .map(|entry| entry.value)
}

// Whether a key is absent among the entries of a page.
pub fn absent(c: &[u8], key: u32) -> bool
    ensures { result ≡ absent_of key (entries c.now) }
{
    search(c, key).is_none()
}

// How many entries of a page stand before the first whose key is not below `key`.
pub fn before<O: KeyOrder>(c: &[u8], key: u32) -> usize
    ensures { result ≡ before_of O.KeyOrder.ordering key (entries c.now) }
{
    Entries::of(c)
        .take_while(|entry| O::less(entry.key, key))
        .count()
}

// Whether the keys of a page rise.
pub fn rising<O: KeyOrder>(c: &[u8]) -> bool
    ensures { result ≡ rising_of O.KeyOrder.ordering (entries c.now) }
{
    Entries::of(c).is_sorted_by(|a, b| O::less(a.key, b.key))
}

// Whether the values of a page are the numbers 1 to its count, each once.
pub(crate) fn fresh(c: &[u8]) -> bool
    requires { count_of c.now ≤ 26 }
    ensures { result ≡ fresh_of (count_of c.now) (λ _. false) (entries c.now) }
{
    let n = byte(c, 1);
    Entries::of(c)
        .try_fold(0, |seen, entry| {
            let value = entry.value;
            let first = 1 <= value && value <= u32::from(n) && !contains(seen, value);
            first.then_some(union(seen, single(value)))
        })
        .is_some()
}
