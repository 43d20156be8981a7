// The MMU: TLB, table walk and page check, from the lower half of src/cpu_privilege.rs.
//
// The bus behind a walk is lent memory: a slice and a physical base. The state goes in by value and comes back by value; in `flat` it is words that an
// owner lends.
#![tactic(auto)]

ghost use Rattle.mmu.specs.Meaning.{Meaning, Corners};

pub mod check;
pub mod exception;
pub mod flat;
pub mod tlb;
pub mod vm;
pub mod walk;

// What the contracts mean: document 01's sentences on the MMU.
pub fn meaning()
    ensures { Meaning }
{}

// The figures of document 01's corner table that are the MMU's.
pub fn corners()
    ensures { Corners }
{}
