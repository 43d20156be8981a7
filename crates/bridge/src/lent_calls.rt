// The machine over a state that the caller holds and lends, under C names: no state crosses.
ghost use Rattle.std.specs.Prelude.{◌≡◌};
ghost use Rattle.memory.specs.Memory.{lent};
ghost use Rattle.machine.specs.Event.{step_of};
ghost use Rattle.machine.specs.Flat.{machine_at};
ghost use Rattle.machine.specs.State.{new_machine};
ghost use Rattle.bridge.specs.Machine.{event_of, line_numbers};

use machine::flat::event::step;
use machine::flat::state::pack;
use machine::state::Machine;
use script::Event;

// An event's line. Its letter crosses as a byte.
#[repr(C)]
#[derive(Drop)]
pub struct MachineLine {
    pub letter: u8,
    pub digits: u32,
    pub stall: u64,
    pub reads: u32,
}

#[unsafe(no_mangle)]
#[tactic(auto, using(crate::proofs::Lent::started))]
pub extern "C" fn machine_start(state: &mut [u32; 659], base: u32, len: u32, miss_penalty: u32)
    ensures { machine_at state.new ≡ new_machine base len miss_penalty }
{
    pack(state, Machine::new(base, len, miss_penalty));
}

// One event, by its fields.
#[unsafe(no_mangle)]
pub extern "C" fn machine_step_in(
    state: &mut [u32; 659],
    mem: &mut [u8],
    base: u32,
    kind: u8,
    size: u8,
    aux: u16,
    a: u32,
    b: u32,
) -> MachineLine
    ensures value { result ≡ line_numbers (step_of (machine_at state.old) (lent base mem.old) (event_of kind size aux a b)).stepped.line }
    ensures state_after { machine_at state.new ≡ (step_of (machine_at state.old) (lent base mem.old) (event_of kind size aux a b)).stepped.machine }
    ensures mem_after { mem.new ≡ (step_of (machine_at state.old) (lent base mem.old) (event_of kind size aux a b)).memory.bytes }
{
    let event = Event {
        kind,
        size,
        aux,
        a,
        b,
    };
    let line = step(state, mem, base, event);
    MachineLine {
        letter: line.letter,
        digits: line.digits,
        stall: line.stall,
        reads: line.reads,
    }
}
