// What one operation answers, and its text.
use common::Refusal;
use mmu::exception::Exception;
use privilege::check::AccessError;
use privilege::state::{InstructionMode, is_short};
use privilege::transfer::DataError;
use std::fmt;
use std::fmt::{Display, Formatter};

// Why an operation has no value.
#[derive(Clone, Copy)]
pub enum Fault {
    Denied(Exception),
    Unmapped,
    BusError,
    Refused(Refusal),
}

impl From<Refusal> for Fault {
    fn from(refusal: Refusal) -> Fault {
        Fault::Refused(refusal)
    }
}

impl From<AccessError> for Fault {
    fn from(error: AccessError) -> Fault {
        match error {
            AccessError::Denied(exception) => Fault::Denied(exception),
            AccessError::Refused(refusal) => Fault::Refused(refusal),
        }
    }
}

impl From<DataError> for Fault {
    fn from(error: DataError) -> Fault {
        match error {
            DataError::BusError => Fault::BusError,
            DataError::Refused(refusal) => Fault::Refused(refusal),
        }
    }
}

// The letter and the number of an outcome.
pub fn shown(outcome: Result<u32, Fault>) -> (char, u32) {
    match outcome {
        Ok(value) => ('V', value),
        Err(Fault::Denied(exception)) => ('X', exception.cause()),
        Err(Fault::Unmapped) => ('X', 0),
        Err(Fault::BusError) => ('B', 0),
        Err(Fault::Refused(refusal)) => ('N', refusal.number()),
    }
}

#[derive(Clone, Copy)]
pub struct Answer {
    pub outcome: Result<u32, Fault>,
    // The one that IRET resumes.
    pub mode: InstructionMode,
    // Words that a check's walks read.
    pub reads: u32,
}

impl Display for Answer {
    fn fmt<W: fmt::Write>(&self, f: &mut Formatter<W>) -> fmt::Result {
        let (letter, value) = shown(self.outcome);
        let short = is_short(self.mode) as u8;
        write!(f, "{letter} {value:08X} {short:X} {}", self.reads)
    }
}
