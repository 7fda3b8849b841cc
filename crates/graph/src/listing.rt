// Lists of the dirty operations of a history: what is computed from such a list is the graph of the history.
ghost use Rattle.graph.specs.Listing.{ListedGraph, ListedRun, ListedInstall};

// A list of the dirty operations of a history has its groups and their order.
pub fn listed_graph()
    ensures { ListedGraph }
{}

// It stays such a list when an operation that runs is put at the end.
pub fn listed_run()
    ensures { ListedRun }
{}

// It stays such a list when a group is installed and what writes into it goes.
pub fn listed_install()
    ensures { ListedInstall }
{}
