// The machine: privilege state, cache, interrupt controller and R0 to R31, with memory lent beside them; its combined access,
// its events and its runs. It stands on the contracts of the parts.
#![tactic(auto)]

ghost use Rattle.machine.specs.Meaning.{Meaning};

pub mod access;
pub mod event;
pub mod flat;
pub mod run;
pub mod state;
pub mod totals;

// What the contracts mean, line by line.
pub fn meaning()
    ensures { Meaning }
{}
