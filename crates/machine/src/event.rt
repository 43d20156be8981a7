// One event's step, by value.
ghost use Rattle.std.specs.Prelude.{◌≡◌};
ghost use Rattle.memory.specs.Memory.{lent};
ghost use Rattle.machine.specs.Event.{step_of};

use crate::flat;
use crate::flat::state::{STATE_WORDS, pack, unpack};
use crate::state::Machine;
use listing::Line;
use script::Event;

#[derive(Drop)]
pub struct Stepped {
    pub machine: Machine,
    pub line: Line,
}

impl Machine {
    // One event. Unnamed fields are ignored.
    pub fn step(self, mem: &mut [u8], base: u32, e: Event) -> Stepped
        ensures { (result ≡ (step_of self (lent base mem.old) e).stepped) × (mem.new ≡ (step_of self (lent base mem.old) e).memory.bytes) }
    {
        let mut state = [0u32; STATE_WORDS];
        pack(&mut state, self);
        let line = flat::event::step(&mut state, mem, base, e);
        Stepped {
            machine: unpack(&state),
            line,
        }
    }
}
