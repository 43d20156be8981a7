// What one operation answers, and its text.
use mmu::exception::Exception;
use std::fmt;
use std::fmt::{Display, Formatter};

#[derive(Clone, Copy)]
pub enum Answer {
    Nothing,
    Allowed { reads: u32 },
    Denied { exception: Exception, reads: u32 },
    Mapped { physical: u32, flags: u32 },
    Unmapped,
    BusError,
}

// The address that a page fault carries, else 0.
fn fault_address(exception: Exception) -> u32 {
    match exception {
        Exception::PageFault {
            access: _,
            protection: _,
            addr,
        } => addr,
        _ => 0,
    }
}

// A letter, two numbers, and the words that a check's walks read.
impl Display for Answer {
    fn fmt<W: fmt::Write>(&self, f: &mut Formatter<W>) -> fmt::Result {
        let (letter, value, addr, reads) = match *self {
            Answer::Nothing => ("-", 0, 0, 0),
            Answer::Allowed { reads } => ("A", 0, 0, reads),
            Answer::Denied { exception, reads } => {
                ("X", exception.cause(), fault_address(exception), reads)
            }
            Answer::Mapped { physical, flags } => ("M", physical, flags, 0),
            Answer::Unmapped => ("U", 0, 0, 0),
            Answer::BusError => ("E", 0, 0, 0),
        };
        write!(f, "{letter} {value:08X} {addr:08X} {reads}")
    }
}
