// How much the contracts say: each public function's contract admits one outcome for each input.
//
// Nothing here is run: the contract is a theorem over the contracts of the other crates, as the check reads them.
#![tactic(auto)]

ghost use Rattle.contracts.specs.Libraries.{Contracts};

pub fn contracts()
    ensures { Contracts }
{}
