// Privilege: traps, system registers, regions, the access check, data access and the debugger's view, from the upper half of
// src/cpu_privilege.rs.
//
// The state goes in by value and comes back by value, with R0 to R31 beside it where they are exchanged; `flat` has the same over
// words that an owner lends. The bus is lent memory.
// Text functions and snapshots are left out.
#![tactic(auto)]

ghost use Rattle.privilege.specs.Corners.{Corners};
ghost use Rattle.privilege.specs.Meaning.{Meaning};

pub mod check;
pub mod debug;
pub mod flat;
pub mod region;
pub mod registers;
pub mod rows;
pub mod state;
pub mod transfer;
pub mod trap;

// What the contracts mean, line by line.
pub fn meaning()
    ensures { Meaning }
{}

// The figures of the description, computed.
pub fn corners()
    ensures { Corners }
{}
