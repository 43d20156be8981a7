// What a run's lines come to, for runs whose listing nobody reads line by line.
ghost use Rattle.std.specs.Prelude.{◌≡◌, ◌+◌, ◌%◌, ◌^◌, if◌then◌else◌};
ghost use Rattle.machine.specs.Totals.{no_totals, counted};

use listing::Line;

// How many lines have each letter; the digits added modulo 2^32; stalls and walk reads added modulo 2^64.
#[repr(C)]
#[derive(Drop)]
pub struct Totals {
    pub values: u64,
    pub exceptions: u64,
    pub bus_errors: u64,
    pub refusals: u64,
    pub digits: u32,
    pub stall: u64,
    pub reads: u64,
}

// One more, if it is.
fn one_more(n: u64, more: bool) -> u64
    ensures { result ≡ (if more then (n + 1) % 2 ^ 64 else n) }
{
    n.wrapping_add(u64::from(more))
}

impl Totals {
    pub(crate) fn new() -> Self
        ensures { result ≡ no_totals }
    {
        Self {
            values: 0,
            exceptions: 0,
            bus_errors: 0,
            refusals: 0,
            digits: 0,
            stall: 0,
            reads: 0,
        }
    }

    // Most lines are values: they ask for one test.
    pub(crate) fn add(mut self, line: Line) -> Self
        ensures { result ≡ counted self line }
    {
        self.digits = self.digits.wrapping_add(line.digits);
        self.stall = self.stall.wrapping_add(line.stall);
        self.reads = self.reads.wrapping_add(line.reads as u64);
        if line.letter == b'V' {
            self.values = self.values.wrapping_add(1);
            return self;
        }
        self.exceptions = one_more(self.exceptions, line.letter == b'X');
        self.bus_errors = one_more(self.bus_errors, line.letter == b'B');
        self.refusals = one_more(self.refusals, line.letter == b'N');
        self
    }
}
