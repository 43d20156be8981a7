// The machine over a state that the caller holds and lends, under C names: no state crosses.
ghost use Rattle.std.specs.Prelude.{◌≡◌};
ghost use Rattle.memory.specs.Memory.{lent};
ghost use Rattle.machine.specs.Event.{step_of};
ghost use Rattle.machine.specs.Flat.{machine_at};
ghost use Rattle.machine.specs.State.{new_machine};
ghost use Rattle.bridge.specs.Machine.{event_of, line_numbers};

use bridge::lent_calls::MachineLine;

#[unsafe(no_mangle)]
pub extern "C" fn machine_start(state: &mut [u32; 659], base: u32, len: u32, miss_penalty: u32)
    ensures { machine_at state.new ≡ new_machine base len miss_penalty }
{
    bridge::lent_calls::machine_start(state, base, len, miss_penalty);
}

// One event, by its fields.
#[unsafe(no_mangle)]
pub extern "C" fn machine_step_in(
    state: &mut [u32; 659],
    mem: &mut [u8],
    base: u32,
    kind: u8,
    size: u8,
    aux: u16,
    a: u32,
    b: u32,
) -> MachineLine
    ensures value { result ≡ line_numbers (step_of (machine_at state.old) (lent base mem.old) (event_of kind size aux a b)).stepped.line }
    ensures state_after { machine_at state.new ≡ (step_of (machine_at state.old) (lent base mem.old) (event_of kind size aux a b)).stepped.machine }
    ensures mem_after { mem.new ≡ (step_of (machine_at state.old) (lent base mem.old) (event_of kind size aux a b)).memory.bytes }
{
    bridge::lent_calls::machine_step_in(state, mem, base, kind, size, aux, a, b)
}
