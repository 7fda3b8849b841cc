// The forms of pages: leaf, full leaf and root.
ghost use Rattle.std.specs.Prelude.{◌≡◌};
ghost use Rattle.tree.specs.Nodes.{well_formed, leaf_form, full_leaf, root_form};
ghost use Rattle.tree.specs.Steps.{cut_form};

use crate::entries::{absent, byte, count, fresh, key_at, rising};
use crate::order::KeyOrder;

pub const FULL: usize = 26;

pub const HALF: usize = 13;

// Whether bytes 2 and 3 are zero, there are at most 26 entries, and keys rise.
fn well_formed<O: KeyOrder>(c: &[u8]) -> bool
    ensures { result ≡ well_formed O.KeyOrder.ordering c.now }
{
    byte(c, 2) == 0 && byte(c, 3) == 0 && count(c) <= FULL && rising::<O>(c)
}

// Whether a page is a leaf.
pub fn is_leaf<O: KeyOrder>(c: &[u8]) -> bool
    ensures { result ≡ leaf_form O.KeyOrder.ordering c.now }
{
    let mark = byte(c, 0);
    (mark == 1 || mark == 0 && count(c) == 0) && well_formed::<O>(c)
}

// Whether a page is a leaf of 26 entries.
pub fn is_full_leaf<O: KeyOrder>(c: &[u8]) -> bool
    ensures { result ≡ full_leaf O.KeyOrder.ordering c.now }
{
    count(c) == FULL && is_leaf::<O>(c)
}

// Whether a page is a root.
pub fn is_root<O: KeyOrder>(c: &[u8]) -> bool
    ensures { result ≡ root_form O.KeyOrder.ordering c.now }
{
    let marked = byte(c, 0) == 2 && count(c) >= 2 && count(c) <= FULL;
    marked && key_at(c, 0) == O::least_key() && fresh(c) && well_formed::<O>(c)
}

// Whether a leaf can be cut and page q put into the root.
pub fn can_cut<O: KeyOrder>(q: u8, root: &[u8], leaf: &[u8]) -> bool
    ensures { result ≡ cut_form O.KeyOrder.ordering q root.now leaf.now }
{
    let known = count(root) + 1 == usize::from(q);
    is_full_leaf::<O>(leaf) && is_root::<O>(root) && known && absent(root, key_at(leaf, HALF))
}
