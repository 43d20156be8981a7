// The loaders' page tables (W-201): a list of mappings becomes the bytes of a level-1 table and of its level-2 tables.
//
// The list is lent as three slices of one order; the tables go into a run of free frames of lent memory.
#![tactic(auto)]

ghost use Rattle.tables.specs.Meaning.{Meaning};

pub mod export;
mod list;
pub mod mapping;
pub mod refusal;
pub mod write;

// What the contracts mean: W-201's sentences, and what isolation needs of the written tables.
pub fn meaning()
    ensures { Meaning }
{}
