// Theorems on pages and entries. The calls do nothing; their contracts are the theorems.
ghost use Rattle.tree.specs.Laws.{Codec, Puts};

use crate::order::KeyOrder;

// A page that is written with entries reads as these entries.
pub fn entries_read_back()
    ensures { Codec }
{}

// A put changes the value of its key alone, and keeps keys rising.
pub fn puts_are_updates<O: KeyOrder>()
    ensures { Puts O.KeyOrder.ordering }
{}
