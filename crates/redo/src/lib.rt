// The theory of redo recovery. The definitions and the theorems stand in specs/; each function here promises one of the theorems.
#![tactic(auto)]

ghost use Rattle.redo.specs.Situations.{SituationsShown};
ghost use Rattle.redo.specs.Theorems.{NoGroupsClean, OneGroupFewer, GroupsPart, RedoRecovers, InstalledRecoverable, GroupInstalls, GroupExplains, NoCircle, SomeReady, HistoryFinite, GraphByOperations, RunKeeps, LossKeeps, TrimKeeps};

// Redo recovers: numbers tell what is installed, each operation that runs again has its first effect, and all pages come back.
pub fn redo_recovers()
    ensures { RedoRecovers }
{}

// Where every stored page is as the last installed operation left it, the installed operations explain the pages.
pub fn installed_recoverable()
    ensures { InstalledRecoverable }
{}

// A group that has none directly before it can be installed; the other groups and their order stay.
pub fn group_installs()
    ensures { GroupInstalls }
{}

// The install of a group keeps what redo needs, also where the installed operations do no more than explain the stored pages.
pub fn group_explains()
    ensures { GroupExplains }
{}

// The install of a group leaves one group fewer.
pub fn one_group_fewer()
    ensures { OneGroupFewer }
{}

// Where there is no group, no page is dirty.
pub fn no_groups_clean()
    ensures { NoGroupsClean }
{}

// The groups part the dirty pages.
pub fn groups_part()
    ensures { GroupsPart }
{}

// The order among groups has no circle.
pub fn no_circle()
    ensures { NoCircle }
{}

// A dirty page means that some group has none directly before it.
pub fn some_ready()
    ensures { SomeReady }
{}

// The dirty operations of a history that ran are finitely many, on the pages that there are.
pub fn history_finite()
    ensures { HistoryFinite }
{}

// The same dirty operations, at whatever places, have the same groups and order.
pub fn graph_by_operations()
    ensures { GraphByOperations }
{}

// One more operation keeps what recovery rests on.
pub fn run_keeps()
    ensures { RunKeeps }
{}

// The loss of operations at the end that are not installed keeps it.
pub fn loss_keeps()
    ensures { LossKeeps }
{}

// Dropping installed operations from the log keeps it.
pub fn trim_keeps()
    ensures { TrimKeeps }
{}

// The table of small situations, by computation, and the bench history once page 41 is installed.
pub fn situations_shown()
    ensures { SituationsShown }
{}
