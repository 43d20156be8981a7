// Isolation: what the port is for. A user's accesses neither show nor change what is sealed off from them.
//
// Nothing here is run: each function's contract is a theorem about the machine's combined access, or about its runs.
#![tactic(auto)]

ghost use Rattle.isolation.specs.Events.{InRuns, InScripts};
ghost use Rattle.isolation.specs.Demand3.{InPages, Demand3, Integrity, Confidentiality};

// Demand 3, for accesses of any number, at every address and size, refused ones included.
pub fn demand_three()
    ensures { Demand3 }
{}

// The same for accesses that stay in their pages, aligned or not.
pub fn in_pages()
    ensures { InPages }
{}

// Demand 3 for the lines that two runs of a script's events print.
pub fn in_runs()
    ensures { InRuns }
{}

// So two scripts whose images differ in what is sealed off from their user print the same listing.
pub fn in_scripts()
    ensures { InScripts }
{}

// What the pit task cannot write, it cannot change.
pub fn integrity()
    ensures { Integrity }
{}

// What is sealed off from the pit task, it learns nothing of.
pub fn confidentiality()
    ensures { Confidentiality }
{}
