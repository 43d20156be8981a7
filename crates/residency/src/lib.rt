// What a resident page permits: change request W-209.
//
// Nothing here is run: the function's contract is a theorem about the machine's runs and its check of an access.
#![tactic(auto)]

ghost use Rattle.residency.specs.Residency.{Residency};

// What the TLB holds from reset on, and the rule that firmware writers reason from.
pub fn residency()
    ensures { Residency }
{}
