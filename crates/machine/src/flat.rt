// The machine where its words stand: 659 numbers that an owner lends, of which each part's crate owns a section.
//
// A function has the name of its by-value twin, and its contract is the twin's definition over what the words stand for. A slice of another
// length is left as it is, with a fixed answer.
pub mod access;
pub mod event;
pub mod run;
pub mod state;
