// The whole state: where a byte is, a register set, reset, and the words of a state by value.
ghost use Rattle.std.specs.Prelude.{◌≡◌, set, replicate, slice_set};
ghost use Rattle.layout.specs.Words.{Reads};
ghost use Rattle.privilege.specs.Flat.{system_words, sys_at, reg_at, Comes};
ghost use Rattle.privilege.specs.State.{new_state, with_rest, with_regions, with_vm};
ghost use Rattle.privilege.specs.Transfer.{physical_of};

use crate::flat::regions::{put_regions, regions_of};
use crate::flat::{CAUSE, EPC, IE, OTHER_BANK, PIE, PSM, PU, REG, REGIONS, SYSTEM_WORDS, USER, VM};
use crate::region::Region;
use crate::state::{SystemState, is_short, mode_of};
use crate::transfer::join;
use mmu::flat::{ENABLED, frame_of};
use mmu::vm::Vm;

// The physical address of a byte that `check_access` has allowed. The TLB is looked up again.
pub fn physical(sys: &[u32], va: u32) -> u32
    ensures { Reads system_words sys.now result 0 (physical_of (sys_at sys.now) va) }
{
    if sys.len() != SYSTEM_WORDS {
        return 0;
    }
    if sys[USER] % 2 != 1 {
        return va;
    }
    if sys[VM + ENABLED] % 2 != 1 {
        return va;
    }
    join(frame_of(&sys[VM..REG], va), va)
}

// One of R0 to R31. There are no others.
pub fn set_reg(sys: &mut [u32], index: usize, value: u32)
    ensures { Comes sys.old sys.new (sys_at sys.old) (slice_set (reg_at sys.old) index value) }
{
    if sys.len() != SYSTEM_WORDS {
        return;
    }
    if index >= 32 {
        return;
    }
    sys[REG + index] = value;
}

// R0 to R31 are kept.
pub fn reset(sys: &mut [u32])
    ensures { Comes sys.old sys.new new_state (reg_at sys.old) }
{
    if sys.len() != SYSTEM_WORDS {
        return;
    }
    let mut fresh = [0u32; 103];
    fresh[IE] = 1;
    fresh[PIE] = 1;
    sys[IE..REG].copy_from_slice(&fresh);
}

// The words before the regions.
fn put_status(words: &mut [u32; SYSTEM_WORDS], s: SystemState)
    ensures { sys_at words.new ≡ with_rest s s.epc s.cause s.other_bank (sys_at words.old).regions (sys_at words.old).vm }
{
    words[IE] = s.ie as u32;
    words[PIE] = s.pie as u32;
    words[USER] = s.user as u32;
    words[PU] = s.pu as u32;
    words[PSM] = is_short(s.psm) as u32;
    words[EPC] = s.epc;
    words[CAUSE] = s.cause;
    let bank = s.other_bank;
    words[OTHER_BANK] = bank[0];
    words[OTHER_BANK + 1] = bank[1];
    words[OTHER_BANK + 2] = bank[2];
}

// Regions and translation.
fn put_tables(words: &mut [u32; SYSTEM_WORDS], regions: [Region; 8], vm: Vm)
    ensures { sys_at words.new ≡ with_vm (with_regions (sys_at words.old) regions) vm }
{
    put_regions(&mut words[REGIONS..VM], regions);
    mmu::flat::pack(&mut words[VM..REG], vm);
}

// The state, without R0 to R31.
fn put_state(words: &mut [u32; SYSTEM_WORDS], s: SystemState)
    ensures { sys_at words.new ≡ s }
{
    put_status(words, s);
    put_tables(words, s.regions, s.vm);
}

// The words of a state and of R0 to R31.
pub fn pack(words: &mut [u32], s: SystemState, reg: [u32; 32])
    ensures { Comes words.old words.new s reg }
{
    let Some(words) = words.as_mut_array::<SYSTEM_WORDS>() else {
        return;
    };
    put_state(words, s);
    words[REG..].copy_from_slice(&reg);
}

// The state that words stand for.
pub fn unpack(words: &[u32]) -> SystemState
    ensures { Reads system_words words.now result new_state (sys_at words.now) }
{
    if words.len() != SYSTEM_WORDS {
        return SystemState::new();
    }
    let regions = regions_of(&words[REGIONS..VM]);
    let vm = mmu::flat::unpack(&words[VM..REG]);
    SystemState {
        ie: words[IE] % 2 == 1,
        pie: words[PIE] % 2 == 1,
        user: words[USER] % 2 == 1,
        pu: words[PU] % 2 == 1,
        psm: mode_of(words[PSM] % 2 == 1),
        epc: words[EPC],
        cause: words[CAUSE],
        other_bank: [
            words[OTHER_BANK],
            words[OTHER_BANK + 1],
            words[OTHER_BANK + 2],
        ],
        regions,
        vm,
    }
}

// R0 to R31.
pub fn unpack_reg(words: &[u32]) -> [u32; 32]
    ensures { Reads system_words words.now result (replicate 32 0) (reg_at words.now) }
{
    let mut reg = [0u32; 32];
    if words.len() != SYSTEM_WORDS {
        return reg;
    }
    reg.copy_from_slice(&words[REG..]);
    reg
}
