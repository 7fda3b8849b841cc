// A step on the tree. Pages are 0 to 26; page 0 is the root, or the only leaf.
#[derive(Clone, Copy, PartialEq, Eq, Debug)]
pub enum Step {
    // Puts a key with its value into a leaf.
    // Kept: the definitions name key and value apart; an entry here would be taken apart in each of them.
    Insert { page: u8, key: u32, value: u32 },
    // Makes a page a leaf of the lower half of a full leaf.
    Lower { from: u8, to: u8 },
    // Makes a page a leaf of the upper half of a full leaf.
    Upper { from: u8, to: u8 },
    // Keeps the lower half of a full leaf, and puts the page of the upper half into the root.
    Cut { leaf: u8, upper: u8 },
    // Turns page 0 from a full leaf to a root over pages 1 and 2.
    Grow,
}
