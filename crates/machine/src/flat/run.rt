// A run over a script's events where the machine's words stand.
ghost use Rattle.machine.specs.FlatRun.{RunsAny};

use crate::flat::event::step;
use crate::flat::state::STATE_WORDS;
use crate::totals::Totals;
use listing::{put_end, put_line};
use script::EVENT_SIZE;
use script::reader::event_of;

// Where in the buffer a run's listing ends, and what its lines come to.
#[derive(Drop)]
pub struct Listed {
    pub place: usize,
    pub totals: Totals,
}

// Steps through `count` events of the script, the first at byte `first`, and lists them: a line each, as far as the buffer has room, and the
// last line.
pub fn run(
    state: &mut [u32],
    mem: &mut [u8],
    base: u32,
    script: &[u8],
    first: u32,
    count: u32,
    out: &mut [u8],
    at: usize,
) -> Listed
    ensures { RunsAny state.old state.new base mem.old script.now first count out.old at result mem.new out.new }
{
    let mut totals = Totals::new();
    if state.len() != STATE_WORDS {
        return Listed { place: at, totals };
    }
    let mut place = at;
    // The place, and no reader: one would be made anew for each event.
    let mut from = first as usize;
    for k in 0..count {
        let line = step(state, mem, base, event_of(script, from));
        totals = totals.add(line);
        place = put_line(out, place, k, line);
        from += EVENT_SIZE;
    }
    Listed {
        place: put_end(out, place, count),
        totals,
    }
}
