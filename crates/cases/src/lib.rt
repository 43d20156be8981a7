// Document 01's corner table: the cases P1 to P12 under one statement.
//
// Nothing here is run: the contract is a theorem. The figures are computed from the definitions of the parts.
#![tactic(auto)]

ghost use Rattle.cases.specs.Cases.{Cases};

pub fn cases()
    ensures { Cases }
{}
