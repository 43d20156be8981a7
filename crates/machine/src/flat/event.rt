// One event's step where the machine's words stand.
ghost use Rattle.std.specs.Prelude.{◌≡◌, length};
ghost use Rattle.machine.specs.Event.{line_of, shown, showing, refusing, shows, trap_event, return_event, read_event, write_event, register_event, state_event};
ghost use Rattle.machine.specs.Flat.{machine_at, Shows, Steps, StepsAny};
ghost use Rattle.machine.specs.State.{with_irqc, with_cache, reset_of};
ghost use Rattle.cache.specs.Cache.{external_written, reg_read, reg_written};

use crate::access::Fault;
use crate::flat::access::access_event;
use crate::flat::state::{
    CACHE, CACHE_END, STATE_WORDS, SYSTEM, SYSTEM_END, controller, put_controller,
};
use cache::flat as cache_words;
use common::Refusal;
use irqc::{IrqController, IrqOutput};
use listing::Line;
use privilege::flat as system_words;
use privilege::state::mode_of;
use script::Event;

#[tactic(auto, unfolding(crate::specs::Event::line_of))]
fn line_of(outcome: Result<u32, Fault>, stall: u32, reads: u32) -> Line
    ensures { result ≡ line_of outcome stall reads }
{
    match outcome {
        Ok(v) => Line::new(b'V', v, stall as u64, reads),
        Err(Fault::Exception(e)) => Line::new(b'X', e.cause(), stall as u64, reads),
        Err(Fault::BusError) => Line::new(b'B', 0, stall as u64, reads),
        Err(Fault::Refused(r)) => Line::new(b'N', r.number(), stall as u64, reads),
    }
}

#[tactic(auto, unfolding(crate::specs::Event::shown))]
fn shown_output(out: IrqOutput) -> u32
    ensures { result ≡ shown out }
{
    if out.valid {
        256 + (out.number as u32)
    } else {
        0
    }
}

// The line of an event that answers a value and costs nothing.
fn show(v: u32) -> Line
    ensures { result ≡ showing v }
{
    Line::new(b'V', v, 0, 0)
}

fn refuse(refusal: Refusal) -> Line
    ensures { result ≡ refusing refusal }
{
    Line::new(b'N', refusal.number(), 0, 0)
}

// Kind 3.
fn trap_event(state: &mut [u32; STATE_WORDS], e: Event) -> Line
    ensures { Shows state.old state.new result (trap_event (machine_at state.old) e) }
{
    system_words::traps::enter_trap(
        &mut state[SYSTEM..SYSTEM_END],
        e.a,
        e.b,
        mode_of(e.aux % 2 == 1),
    );
    show(0)
}

// Kind 4.
fn return_event(state: &mut [u32; STATE_WORDS]) -> Line
    ensures { Shows state.old state.new result (return_event (machine_at state.old)) }
{
    let resumed = system_words::traps::leave_trap(&mut state[SYSTEM..SYSTEM_END]);
    show(resumed.epc)
}

// Kind 5.
fn read_event(state: &[u32; STATE_WORDS], e: Event) -> Line
    ensures { Shows state.now state.now result (read_event (machine_at state.now) e) }
{
    match system_words::registers::read_sr(&state[SYSTEM..SYSTEM_END], e.aux) {
        Ok(v) => show(v),
        Err(r) => refuse(r),
    }
}

// Kind 6.
fn write_event(state: &mut [u32; STATE_WORDS], e: Event) -> Line
    ensures { Shows state.old state.new result (write_event (machine_at state.old) e) }
{
    match system_words::registers::write_sr(&mut state[SYSTEM..SYSTEM_END], e.aux, e.a) {
        Ok(()) => show(0),
        Err(r) => refuse(r),
    }
}

// Kinds 7, 8 and 9 leave a controller and answer nothing.
fn irqc_event(state: &mut [u32; STATE_WORDS], irqc: IrqController) -> Line
    ensures { Shows state.old state.new result (shows (with_irqc (machine_at state.old) irqc) 0) }
{
    put_controller(state, irqc);
    show(0)
}

// Kind 10.
fn external_event(state: &mut [u32; STATE_WORDS], e: Event) -> Line
    ensures { Shows state.old state.new result (shows (with_cache (machine_at state.old) (external_written (machine_at state.old).cache e.a e.b)) 0) }
{
    cache_words::external_write(&mut state[CACHE..CACHE_END], e.a, e.b);
    show(0)
}

// Kind 11.
fn cache_read(state: &[u32; STATE_WORDS], e: Event) -> Line
    ensures { result ≡ showing (reg_read (machine_at state.now).cache e.a) }
{
    show(cache_words::read_reg(&state[CACHE..CACHE_END], e.a))
}

// Kind 12.
fn cache_write(state: &mut [u32; STATE_WORDS], e: Event) -> Line
    ensures { Shows state.old state.new result (shows (with_cache (machine_at state.old) (reg_written (machine_at state.old).cache e.a e.b)) 0) }
{
    cache_words::write_reg(&mut state[CACHE..CACHE_END], e.a, e.b);
    show(0)
}

// Kind 13.
fn reset_event(state: &mut [u32; STATE_WORDS]) -> Line
    ensures { Shows state.old state.new result (shows (reset_of (machine_at state.old)) 0) }
{
    system_words::state::reset(&mut state[SYSTEM..SYSTEM_END]);
    cache_words::reset(&mut state[CACHE..CACHE_END]);
    put_controller(state, IrqController::new());
    show(0)
}

// Kind 15.
fn register_event(state: &mut [u32; STATE_WORDS], e: Event) -> Line
    ensures { Shows state.old state.new result (register_event (machine_at state.old) e) }
{
    if e.size < 32 {
        system_words::state::set_reg(&mut state[SYSTEM..SYSTEM_END], e.size as usize, e.a);
        return show(0);
    }
    refuse(Refusal::Event)
}

// Kinds 3 to 15, which touch no memory. Any byte may stand in a script, and the functions name what each does: an enum of kinds would only name it twice.
fn state_event(state: &mut [u32; STATE_WORDS], e: Event) -> Line
    ensures { Shows state.old state.new result (state_event (machine_at state.old) e) }
{
    let irqc = controller(state);
    match e.kind {
        3 => trap_event(state, e),
        4 => return_event(state),
        5 => read_event(state, e),
        6 => write_event(state, e),
        7 => irqc_event(state, irqc.set_source(e.aux as u32, e.size != 0)),
        8 => irqc_event(state, irqc.clear_pending(e.aux)),
        9 => irqc_event(state, irqc.set_enable_mask(e.aux)),
        10 => external_event(state, e),
        11 => cache_read(state, e),
        12 => cache_write(state, e),
        13 => reset_event(state),
        14 => show(shown_output(irqc.irq_output())),
        15 => register_event(state, e),
        _ => refuse(Refusal::Event),
    }
}

// One event. Unnamed fields are ignored.
pub fn step(state: &mut [u32], mem: &mut [u8], base: u32, e: Event) -> Line
    ensures { StepsAny state.old state.new base mem.old e result mem.new }
{
    let Some(state) = state.as_mut_array::<STATE_WORDS>() else {
        return refuse(Refusal::Map);
    };
    step_words(state, mem, base, e)
}

// The same over as many words as a machine has.
pub(crate) fn step_words(
    state: &mut [u32; STATE_WORDS],
    mem: &mut [u8],
    base: u32,
    e: Event,
) -> Line
    ensures { (length state.new ≡ length state.old) × Steps state.old state.new base mem.old e result mem.new }
{
    if e.kind < 3 {
        let answer = access_event(state, mem, base, e);
        return line_of(answer.outcome, answer.stall, answer.reads);
    }
    state_event(state, e)
}
