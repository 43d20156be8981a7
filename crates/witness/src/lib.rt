// Demand 3 is not vacuous, and none of its premises can be left out: shown on real tables in real memories.
//
// Nothing here is run: each function's contract is a theorem. The figures are computed from the definitions of the parts below,
// so this crate opens them, as no other crate above the machine does.
#![tactic(auto)]

ghost use Rattle.witness.specs.Witness.{Witness};
ghost use Rattle.witness.specs.Counterexamples.{Needed};

// The premises can be met by two memories that differ, and the accesses that they allow do something.
pub fn witness()
    ensures { Witness }
{}

// For each premise, two runs in which all the others hold and the answers differ.
pub fn counterexamples()
    ensures { Needed }
{}
