// The machine's words: those of the privilege state and R0 to R31, those of the cache, and three of the controller.
ghost use Rattle.std.specs.Prelude.{◌≡◌, ◌%◌, ◌^◌};
ghost use Rattle.layout.specs.Words.{Over, Reads};
ghost use Rattle.machine.specs.Flat.{state_words, machine_at, Left};
ghost use Rattle.machine.specs.State.{new_machine, with_irqc};

use crate::state::Machine;
use cache::flat as cache_words;
use irqc::IrqController;
use privilege::flat as system_words;

pub const STATE_WORDS: usize = 659;

// Where each part's words start and end.
pub(crate) const SYSTEM: usize = 0;

pub(crate) const SYSTEM_END: usize = 135;

pub(crate) const CACHE: usize = SYSTEM_END;

pub(crate) const CACHE_END: usize = 656;

const PENDING: usize = CACHE_END;

const ENABLE: usize = 657;

const SOURCE_LEVEL: usize = 658;

fn half(word: u32) -> u16
    ensures { result ≡ word % 2 ^ 16 }
{
    (word & 0xffff) as u16
}

// The controller, by value: it is three numbers.
pub(crate) fn controller(state: &[u32; STATE_WORDS]) -> IrqController
    ensures { result ≡ (machine_at state.now).irqc }
{
    IrqController {
        pending: half(state[PENDING]),
        enable: half(state[ENABLE]),
        source_level: half(state[SOURCE_LEVEL]),
    }
}

pub(crate) fn put_controller(state: &mut [u32; STATE_WORDS], c: IrqController)
    ensures { Left state.old state.new (with_irqc (machine_at state.old) c) }
{
    state[PENDING] = c.pending as u32;
    state[ENABLE] = c.enable as u32;
    state[SOURCE_LEVEL] = c.source_level as u32;
}

// The words of a machine.
pub fn pack(state: &mut [u32], m: Machine)
    ensures { Over state_words state.old state.new (tt {0}) (tt {0}) (machine_at state.new ≡ m) }
{
    let Some(state) = state.as_mut_array::<STATE_WORDS>() else {
        return;
    };
    pack_words(state, m);
}

// The same over as many words as a machine has.
fn pack_words(state: &mut [u32; STATE_WORDS], m: Machine)
    ensures { Left state.old state.new m }
{
    system_words::state::pack(&mut state[SYSTEM..SYSTEM_END], m.sys, m.reg);
    cache_words::pack(&mut state[CACHE..CACHE_END], m.cache);
    put_controller(state, m.irqc);
}

// The machine of its words.
pub fn unpack(state: &[u32]) -> Machine
    ensures { Reads state_words state.now result (new_machine 0 0 0) (machine_at state.now) }
{
    let Some(state) = state.as_array::<STATE_WORDS>() else {
        return Machine::new(0, 0, 0);
    };
    unpack_words(state)
}

// The same over as many words as a machine has.
fn unpack_words(state: &[u32; STATE_WORDS]) -> Machine
    ensures { result ≡ machine_at state.now }
{
    Machine {
        sys: system_words::state::unpack(&state[SYSTEM..SYSTEM_END]),
        cache: cache_words::unpack(&state[CACHE..CACHE_END]),
        irqc: controller(state),
        reg: system_words::state::unpack_reg(&state[SYSTEM..SYSTEM_END]),
    }
}
