// The steps on the tree.
ghost use Rattle.std.specs.Prelude.{◌≡◌, ℕ, cond, ◌≤◌, length, take, drop, nat_le};
ghost use Rattle.kinds.specs.Kinds.{answer as answer_of, filled as filled_by};
ghost use Rattle.tree.specs.Nodes.{count as count_of, entries, before as before_of, hit as hit_of, put as put_of, renew};
ghost use Rattle.tree.specs.Steps.{inserted, half as half_of, cut as cut_of, grow as grow_of, change, Ready};
ghost use Rattle.tree.specs.Unfits.{coded};

use crate::entries::{Entry, before, count, key_at};
use crate::forms::{FULL, HALF, can_cut, is_full_leaf, is_leaf};
use crate::order::KeyOrder;
use crate::step::Step;
use crate::unfit::Unfit;
use crate::write::{halve, plant, shrink, splice};
use kinds::CONTENTS;

// Whether entry i has the key.
fn hit(c: &[u8], i: usize, key: u32) -> bool
    ensures { cond result 1 0 ≡ hit_of key (drop i (entries c.now)) }
{
    i < count(c) && key_at(c, i) == key
}

// Whether a page with a key put in has at most 26 entries.
fn fits<O: KeyOrder>(c: &[u8], key: u32) -> bool
    ensures { (v : ℕ) → result ≡ nat_le (length (put_of O.KeyOrder.ordering key v (entries c.now))) 26 }
{
    let i = before::<O>(c, key);
    count(c) + 1 - usize::from(hit(c, i, key)) <= FULL
}

// Writes a page with an entry put in.
fn put<O: KeyOrder>(mark: u8, entry: Entry, old: &[u8], new: &mut [u8])
    requires lengths { (length old.now ≡ 224) × (length new.old ≡ 224) }
    requires few { (count_of old.now ≤ 26) × (length (put_of O.KeyOrder.ordering entry.key entry.value (entries old.now)) ≤ 26) }
    ensures { new.new ≡ renew mark (put_of O.KeyOrder.ordering entry.key entry.value (entries old.now)) old.now }
{
    let i = before::<O>(old, entry.key);
    let skip = usize::from(hit(old, i, entry.key));
    splice(old, new, mark, i..i + skip, entry);
}

// Puts an entry into a leaf.
fn insert<O: KeyOrder>(entry: Entry, old: &[u8], new: &mut [u8]) -> Result<(), Unfit>
    requires { (length old.now ≡ 224) × (length new.old ≡ 224) }
    ensures answer { coded result ≡ answer_of (inserted O.KeyOrder.ordering entry.key entry.value old.now) }
    ensures buffer { new.new ≡ filled_by (inserted O.KeyOrder.ordering entry.key entry.value old.now) new.old }
{
    if !is_leaf::<O>(old) {
        return Err(Unfit::NotOfForm);
    }
    if !fits::<O>(old, entry.key) {
        return Err(Unfit::Full);
    }
    put::<O>(1, entry, old, new);
    Ok(())
}

// Makes a fresh leaf of the half of a full one from entry `from` on.
fn half<O: KeyOrder>(from: usize, old: &[u8], new: &mut [u8]) -> Result<(), Unfit>
    requires { (length old.now ≡ 224) × ((length new.old ≡ 224) × (from ≤ 13)) }
    ensures answer { coded result ≡ answer_of (half_of O.KeyOrder.ordering from old.now) }
    ensures buffer { new.new ≡ filled_by (half_of O.KeyOrder.ordering from old.now) new.old }
{
    if !is_full_leaf::<O>(old) {
        return Err(Unfit::NotOfForm);
    }
    halve(old, new, from);
    Ok(())
}

// Keeps the lower half of a full leaf, and puts the page of the upper half into the root.
fn cut<O: KeyOrder>(q: u8, old: &[u8], new: &mut [u8]) -> Result<(), Unfit>
    requires { (length old.now ≡ 448) × ((length new.old ≡ 448) × (q ≤ 26)) }
    ensures answer { coded result ≡ answer_of (cut_of O.KeyOrder.ordering q (take 224 old.now) (drop 224 old.now)) }
    ensures buffer { new.new ≡ filled_by (cut_of O.KeyOrder.ordering q (take 224 old.now) (drop 224 old.now)) new.old }
{
    let root = &old[0..CONTENTS];
    let leaf = &old[CONTENTS..2 * CONTENTS];
    if !can_cut::<O>(q, root, leaf) {
        return Err(Unfit::NotOfForm);
    }
    let entry = Entry {
        key: key_at(leaf, HALF),
        value: u32::from(q),
    };
    put::<O>(2, entry, root, &mut new[0..CONTENTS]);
    shrink(leaf, &mut new[CONTENTS..2 * CONTENTS]);
    Ok(())
}

// Turns a full leaf to a root of two entries.
fn grow<O: KeyOrder>(old: &[u8], new: &mut [u8]) -> Result<(), Unfit>
    requires { (length old.now ≡ 224) × (length new.old ≡ 224) }
    ensures answer { coded result ≡ answer_of (grow_of O.KeyOrder.ordering old.now) }
    ensures buffer { new.new ≡ filled_by (grow_of O.KeyOrder.ordering old.now) new.old }
{
    if !is_full_leaf::<O>(old) {
        return Err(Unfit::NotOfForm);
    }
    plant(old, new, O::least_key(), key_at(old, HALF));
    Ok(())
}

impl Step {
    // Takes the step: writes the written pages' contents from those of the pages read, or gives why not.
    pub(crate) fn take<O: KeyOrder>(&self, old: &[u8], new: &mut [u8]) -> Result<(), Unfit>
        requires { Ready self.now (length old.now) (length new.old) }
        ensures answer { coded result ≡ answer_of (change O.KeyOrder.ordering self.now old.now) }
        ensures buffer { new.new ≡ filled_by (change O.KeyOrder.ordering self.now old.now) new.old }
    {
        match *self {
            Step::Insert { key, value, .. } => insert::<O>(Entry { key, value }, old, new),
            Step::Lower { .. } => half::<O>(0, old, new),
            Step::Upper { .. } => half::<O>(HALF, old, new),
            Step::Cut { upper, .. } => cut::<O>(upper, old, new),
            Step::Grow => grow::<O>(old, new),
        }
    }
}
