// `tables` under C names, as a static library: each export asks the library's function of its name and states that function's clauses again.
#![tactic(auto)]

ghost use Rattle.std.specs.Prelude.{◌≡◌};
ghost use Rattle.memory.specs.Memory.{lent};
ghost use Rattle.tables.specs.Refusal.{in_numbers};
ghost use Rattle.tables.specs.Tables.{answer_for, memory_after};

use tables::export::TablesAnswer;

#[unsafe(no_mangle)]
pub extern "C" fn tables_write(
    mem: &mut [u8],
    base: u32,
    vpns: &[u32],
    ppns: &[u32],
    bits: &[u8],
    first: u32,
    frames: u32,
) -> TablesAnswer
    ensures { (result ≡ in_numbers (answer_for (lent base mem.old) vpns.now ppns.now bits.now first frames)) × (mem.new ≡ (memory_after (lent base mem.old) vpns.now ppns.now bits.now first frames).bytes) }
{
    tables::export::tables_write(mem, base, vpns, ppns, bits, first, frames)
}
