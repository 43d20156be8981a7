// A run over a script's events, and its listing.
ghost use Rattle.std.specs.Prelude.{◌≡◌, ◌≤◌, ◌++◌, length, take};
ghost use Rattle.listing.specs.Listing.{lines_from, end_text};
ghost use Rattle.memory.specs.Memory.{lent};
ghost use Rattle.text.specs.Text.{written};
ghost use Rattle.machine.specs.Totals.{no_totals, totals_from};
ghost use Rattle.machine.specs.Run.{run_from, script_run, listing_of};

use crate::flat;
use crate::flat::state::{STATE_WORDS, pack, unpack};
use crate::state::Machine;
use crate::totals::Totals;
use listing::{LISTING_MAX, put_refused};
use script::header::{Header, copy_image, header_of};

#[derive(Drop)]
pub struct Ran {
    pub machine: Machine,
    // Where in the buffer the listing ends.
    pub place: usize,
    pub totals: Totals,
}

impl Machine {
    // Steps through `count` events of the script, the first at byte `first`, and lists them: a line each, as far as the buffer has
    // room, and the last line.
    pub fn run(
        self,
        mem: &mut [u8],
        base: u32,
        script: &[u8],
        first: u32,
        count: u32,
        out: &mut [u8],
        at: usize,
    ) -> Ran
        ensures machine_value { result.machine ≡ (run_from count script.now first self (lent base mem.old)).machine }
        ensures mem_after { mem.new ≡ (run_from count script.now first self (lent base mem.old)).memory.bytes }
        ensures place_after { (out.new, result.place) ≡ written (out.old, at) (lines_from 0 (run_from count script.now first self (lent base mem.old)).lines ++ end_text count) }
        ensures totals_value { result.totals ≡ totals_from no_totals (run_from count script.now first self (lent base mem.old)).lines }
    {
        let mut state = [0u32; STATE_WORDS];
        pack(&mut state, self);
        let listed = flat::run::run(&mut state, mem, base, script, first, count, out, at);
        Ran {
            machine: unpack(&state),
            place: listed.place,
            totals: listed.totals,
        }
    }
}

// A good script's run, over memory of the image's length.
fn list_good(script: &[u8], h: Header, mem: &mut [u8], out: &mut [u8]) -> usize
    requires { length mem.old ≡ h.image }
    ensures { (out.new, result) ≡ written (out.old, 0) (lines_from 0 (script_run script.now h).lines ++ end_text h.events) }
{
    copy_image(script, h.image_at as usize, mem);
    let machine = Machine::new(h.base, h.image, h.penalty);
    let ran = machine.run(mem, h.base, script, h.events_at, h.events, out, 0);
    ran.place
}

// The listing of a whole script, as far as the buffer has room: how much of it is filled.
pub fn list(script: &[u8], out: &mut [u8]) -> usize
    ensures { (out.new, result) ≡ written (out.old, 0) (listing_of script.now) }
{
    match header_of(script) {
        Ok(h) => {
            // Room for the largest image: a library has no heap.
            let mut mem = [0u8; 32768];
            list_good(script, h, &mut mem[..h.image as usize], out)
        }
        Err(refusal) => put_refused(out, 0, refusal.number()),
    }
}

// The listing of any script, whole: the buffer has room for the longest. How many of its first bytes are the listing.
pub fn list_whole(script: &[u8], out: &mut [u8; LISTING_MAX]) -> usize
    ensures result_after { (out.new, result) ≡ written (out.old, 0) (listing_of script.now) }
    ensures upper_bound { (result ≤ length out.new) × (take result out.new ≡ listing_of script.now) }
{
    list(script, out)
}
