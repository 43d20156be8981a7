// A whole race under a C name: any number of events in one call. It has a static library of its own, race_c: there the machine's loop has this
// one caller, and the compiler makes it for a run that writes no lines.
#![tactic(auto)]

ghost use Rattle.std.specs.Prelude.{◌≡◌, ◌%◌, ◌^◌, length};
ghost use Rattle.machine.specs.Run.{run_from};
ghost use Rattle.machine.specs.State.{new_machine};
ghost use Rattle.machine.specs.Totals.{no_totals, totals_from};
ghost use Rattle.memory.specs.Memory.{lent};

use machine::state::Machine;
use machine::totals::Totals;

// A new machine over the memory, `count` events from the start of the slice on, and the totals of their lines. No line is written.
#[unsafe(no_mangle)]
pub extern "C" fn race_run(
    mem: &mut [u8],
    base: u32,
    penalty: u32,
    events: &[u8],
    count: u32,
) -> Totals
    ensures value { result ≡ totals_from no_totals (run_from count events.now 0 (new_machine base (length mem.old % 2 ^ 32) penalty) (lent base mem.old)).lines }
    ensures mem_after { mem.new ≡ (run_from count events.now 0 (new_machine base (length mem.old % 2 ^ 32) penalty) (lent base mem.old)).memory.bytes }
{
    let len = (mem.len() % 0x1_0000_0000) as u32;
    let machine = Machine::new(base, len, penalty);
    let ran = machine.run(mem, base, events, 0, count, &mut [], 0);
    ran.totals
}
