// What stops a call before it has looked at anything: a map that is not good, then a size that is not legal.
ghost use Rattle.std.specs.Prelude.{◌≡◌};
ghost use Rattle.memory.specs.Memory.{lent};
ghost use Rattle.memory.specs.Gate.{access_gate};

use crate::good_map;
use common::Refusal;

// Lets a call in, or says which refusal it is: 2 for the map, and else 1 for the size.
#[tactic(auto, unfolding(crate::specs::Gate::access_gate, crate::specs::Gate::map_gate))]
pub fn admit(mem: &[u8], base: u32, legal: bool) -> Result<(), Refusal>
    ensures { result ≡ access_gate (lent base mem.now) legal }
{
    if !good_map(mem, base) {
        return Err(Refusal::Map);
    }
    if legal { Ok(()) } else { Err(Refusal::Size) }
}
