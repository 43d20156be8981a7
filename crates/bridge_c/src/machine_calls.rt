// The machine, under C names: a script's listing, and one event's step with the whole state.
ghost use Rattle.std.specs.Prelude.{◌≡◌};
ghost use Rattle.memory.specs.Memory.{lent};
ghost use Rattle.text.specs.Text.{written};
ghost use Rattle.machine.specs.Event.{step_of};
ghost use Rattle.machine.specs.Run.{listing_of};
ghost use Rattle.machine.specs.State.{new_machine};
ghost use Rattle.bridge.specs.Machine.{machine_of, machine_numbers, event_of, step_numbers};

use bridge::machine_calls::{MachineState, MachineStepped};

#[unsafe(no_mangle)]
pub extern "C" fn machine_new(base: u32, len: u32, miss_penalty: u32) -> MachineState
    ensures { result ≡ machine_numbers (new_machine base len miss_penalty) }
{
    bridge::machine_calls::machine_new(base, len, miss_penalty)
}

// One event, by its fields.
#[unsafe(no_mangle)]
pub extern "C" fn machine_step(
    m: MachineState,
    mem: &mut [u8],
    base: u32,
    kind: u8,
    size: u8,
    aux: u16,
    a: u32,
    b: u32,
) -> MachineStepped
    ensures { (result ≡ step_numbers (step_of (machine_of m) (lent base mem.old) (event_of kind size aux a b)).stepped) × (mem.new ≡ (step_of (machine_of m) (lent base mem.old) (event_of kind size aux a b)).memory.bytes) }
{
    bridge::machine_calls::machine_step(m, mem, base, kind, size, aux, a, b)
}

// The listing of a whole script: how much of the buffer it fills.
#[unsafe(no_mangle)]
pub extern "C" fn machine_list(script: &[u8], out: &mut [u8]) -> usize
    ensures { (out.new, result) ≡ written (out.old, 0) (listing_of script.now) }
{
    bridge::machine_calls::machine_list(script, out)
}
