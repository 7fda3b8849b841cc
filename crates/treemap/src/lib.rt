// The tree as a map: after any calls, cut anywhere by power failures, a lookup finds what the surviving puts put in. The
// definitions and the theorems stand in specs/; each function here promises one of the theorems, for any order on keys. Some
// ask for the least key: the root's first key is stored, so it has to be a key of four bytes.
#![tactic(auto)]

ghost use Rattle.treemap.specs.Laws.{BodiesSay, CutAnywhere, KindSteps, LastCounts, MapOfPuts, MiddleNew, PlansFormed, PutsAccepted, PutsRun, RefusedForRoom};

use tree::KeyOrder;

// The first so many of the operations that calls left are again operations that calls can leave.
pub fn cut_anywhere<O: KeyOrder>()
    ensures { CutAnywhere O.KeyOrder.ordering }
{}

// No lookup fails, and each finds the value that the last surviving put of its key gave.
pub fn map_of_puts<O: KeyOrder>()
    ensures { MapOfPuts O.KeyOrder.ordering }
{
    let _ = O::least_key();
}

// Every step of a put is accepted.
pub fn puts_run<O: KeyOrder>()
    ensures { PutsRun O.KeyOrder.ordering }
{
    let _ = O::least_key();
}

// The middle key of a full leaf under the root is not in the root.
pub fn middle_new<O: KeyOrder>()
    ensures { MiddleNew O.KeyOrder.ordering }
{
    let _ = O::least_key();
}

// A put is refused only where the root is full.
pub fn refused_for_room<O: KeyOrder>()
    ensures { RefusedForRoom O.KeyOrder.ordering }
{
    let _ = O::least_key();
}

// On any pages, only the last step of a put changes what is looked up.
pub fn last_counts<O: KeyOrder>()
    ensures { LastCounts O.KeyOrder.ordering }
{}

// On any pages of 224 bytes, each step of a put that is not refused is accepted.
pub fn puts_accepted<O: KeyOrder>()
    ensures { PutsAccepted O.KeyOrder.ordering }
{
    let _ = O::least_key();
}

// On any pages, each step of a put that is not refused can be said by a body.
pub fn plans_formed<O: KeyOrder>()
    ensures { PlansFormed O.KeyOrder.ordering }
{}

// The body of a step says it.
pub fn bodies_say()
    ensures { BodiesSay }
{}

// What the tree kind makes of a body is what the step that it says makes of the pages.
pub fn kind_steps<O: KeyOrder>()
    ensures { KindSteps O.KeyOrder.ordering }
{}
