// The privilege state as words that an owner lends, R0 to R31 with it. Each function has the name of the one that goes by value: that one
// hands the state back, as document 01 wants it, and this one changes the words that C lends, where they stand.
//
// Words: IE, PIE, U, PU, PSM (odd where it is Short), EPC, CAUSE, the other mode's R28 to R30, the regions (START, END and FLAGS of
// each in turn), translation's words, R0 to R31. Words of another number are left as they are.
pub mod access;
pub mod regions;
pub mod registers;
pub mod state;
pub mod traps;

// Where the parts stand.
pub const IE: usize = 0;

pub const PIE: usize = 1;

pub const USER: usize = 2;

pub const PU: usize = 3;

pub const PSM: usize = 4;

pub const EPC: usize = 5;

pub const CAUSE: usize = 6;

pub const OTHER_BANK: usize = 7;

pub const REGIONS: usize = OTHER_BANK + 3;

pub const VM: usize = REGIONS + 24;

pub const REG: usize = VM + 69;

pub const SYSTEM_WORDS: usize = REG + 32;
