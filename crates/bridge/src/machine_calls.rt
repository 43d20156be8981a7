// The machine, under C names: a script's listing, and one event's step with the whole state.
ghost use Rattle.std.specs.Prelude.{◌≡◌};
ghost use Rattle.memory.specs.Memory.{lent};
ghost use Rattle.text.specs.Text.{written};
ghost use Rattle.machine.specs.Event.{step_of};
ghost use Rattle.machine.specs.Run.{listing_of};
ghost use Rattle.machine.specs.State.{new_machine};
ghost use Rattle.bridge.specs.Machine.{machine_of, machine_numbers, event_of, step_numbers};

use crate::privilege_calls::{PrivilegeState, state_numbers, state_of};
use cache::L1Cache;
use irqc::IrqController;
use machine::event::Stepped;
use machine::run::list;
use machine::state::Machine;
use script::Event;

// R0 to R31 are those of the privilege state.
#[repr(C)]
#[derive(Drop)]
pub struct MachineState {
    pub sys: PrivilegeState,
    pub cache: L1Cache,
    pub irqc: IrqController,
}

// What an event's step leaves, and its line.
#[repr(C)]
#[derive(Drop)]
pub struct MachineStepped {
    pub machine: MachineState,
    pub letter: u8,
    pub digits: u32,
    pub stall: u64,
    pub reads: u32,
}

#[tactic(auto, unfolding(crate::specs::Machine::machine_of))]
fn machine_of(p: MachineState) -> Machine
    ensures { result ≡ machine_of p }
{
    let sys = p.sys;
    let reg = sys.reg;
    let cache = p.cache;
    let irqc = p.irqc;
    Machine {
        sys: state_of(sys),
        cache,
        irqc,
        reg,
    }
}

#[tactic(auto, unfolding(crate::specs::Machine::machine_numbers))]
fn machine_numbers(m: Machine) -> MachineState
    ensures { result ≡ machine_numbers m }
{
    let sys = m.sys;
    let reg = m.reg;
    let cache = m.cache;
    let irqc = m.irqc;
    MachineState {
        sys: state_numbers(sys, reg),
        cache,
        irqc,
    }
}

#[tactic(auto, unfolding(crate::specs::Machine::step_numbers))]
fn step_numbers(s: Stepped) -> MachineStepped
    ensures { result ≡ step_numbers s }
{
    let machine = s.machine;
    let line = s.line;
    MachineStepped {
        machine: machine_numbers(machine),
        letter: line.letter,
        digits: line.digits,
        stall: line.stall,
        reads: line.reads,
    }
}

#[unsafe(no_mangle)]
pub extern "C" fn machine_new(base: u32, len: u32, miss_penalty: u32) -> MachineState
    ensures { result ≡ machine_numbers (new_machine base len miss_penalty) }
{
    machine_numbers(Machine::new(base, len, miss_penalty))
}

// One event, by its fields.
#[unsafe(no_mangle)]
pub extern "C" fn machine_step(
    m: MachineState,
    mem: &mut [u8],
    base: u32,
    kind: u8,
    size: u8,
    aux: u16,
    a: u32,
    b: u32,
) -> MachineStepped
    ensures { (result ≡ step_numbers (step_of (machine_of m) (lent base mem.old) (event_of kind size aux a b)).stepped) × (mem.new ≡ (step_of (machine_of m) (lent base mem.old) (event_of kind size aux a b)).memory.bytes) }
{
    let event = Event {
        kind,
        size,
        aux,
        a,
        b,
    };
    step_numbers(machine_of(m).step(mem, base, event))
}

// The listing of a whole script: how much of the buffer it fills.
#[unsafe(no_mangle)]
pub extern "C" fn machine_list(script: &[u8], out: &mut [u8]) -> usize
    ensures { (out.new, result) ≡ written (out.old, 0) (listing_of script.now) }
{
    list(script, out)
}
