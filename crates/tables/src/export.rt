// The writer under a C name: slices cross as pointer and length, the answer as numbers.
ghost use Rattle.std.specs.Prelude.{◌≡◌};
ghost use Rattle.memory.specs.Memory.{lent};
ghost use Rattle.tables.specs.Refusal.{in_numbers};
ghost use Rattle.tables.specs.Tables.{answer_for, memory_after};

use crate::refusal::Refusal;
use crate::write::{Tables, write_tables};

// `refusal` is 0 where the tables are written; else it is the refusal's number and the others are 0.
#[repr(C)]
#[derive(Drop)]
pub struct TablesAnswer {
    pub refusal: u32,
    pub ptbr: u32,
    pub used: u32,
}

#[tactic(auto, unfolding(crate::specs::Refusal::in_numbers))]
fn in_numbers(answer: Result<Tables, Refusal>) -> TablesAnswer
    ensures { result ≡ in_numbers answer }
{
    match answer {
        Ok(Tables { ptbr, used }) => TablesAnswer {
            refusal: 0,
            ptbr,
            used,
        },
        Err(refusal) => TablesAnswer {
            refusal: refusal.number(),
            ptbr: 0,
            used: 0,
        },
    }
}

#[unsafe(no_mangle)]
pub extern "C" fn tables_write(
    mem: &mut [u8],
    base: u32,
    vpns: &[u32],
    ppns: &[u32],
    bits: &[u8],
    first: u32,
    frames: u32,
) -> TablesAnswer
    ensures { (result ≡ in_numbers (answer_for (lent base mem.old) vpns.now ppns.now bits.now first frames)) × (mem.new ≡ (memory_after (lent base mem.old) vpns.now ppns.now bits.now first frames).bytes) }
{
    in_numbers(write_tables(mem, base, vpns, ppns, bits, first, frames))
}
