// Traps: entry, return, and the exchange of R28 to R30, where the words stand.
ghost use Rattle.privilege.specs.Flat.{Becomes, Exchanges, Traps, Returns, sys_at, reg_at};
ghost use Rattle.privilege.specs.Trap.{saved};

use crate::flat::{CAUSE, EPC, IE, OTHER_BANK, PIE, PSM, PU, REG, SYSTEM_WORDS, USER};
use crate::state::{InstructionMode, is_short, mode_of};
use crate::trap::BANK_FIRST;

// The PC and the instruction mode to resume.
#[derive(Drop)]
pub struct Resumed {
    pub epc: u32,
    pub mode: InstructionMode,
}

// R28 to R30 exchanged with the bank.
fn exchange(sys: &mut [u32; SYSTEM_WORDS])
    ensures { Exchanges sys.old sys.new }
{
    sys.swap(OTHER_BANK, REG + BANK_FIRST);
    sys.swap(OTHER_BANK + 1, REG + BANK_FIRST + 1);
    sys.swap(OTHER_BANK + 2, REG + BANK_FIRST + 2);
}

// STATUS, EPC and CAUSE of a trap.
fn save(sys: &mut [u32; SYSTEM_WORDS], epc: u32, cause: u32, mode: InstructionMode)
    ensures { Becomes sys.old sys.new (saved (sys_at sys.old) epc cause mode) (reg_at sys.old) }
{
    let ie = sys[IE];
    let user = sys[USER];
    sys[IE] = 0;
    sys[PIE] = ie;
    sys[USER] = 0;
    sys[PU] = user;
    sys[PSM] = is_short(mode) as u32;
    sys[EPC] = epc;
    sys[CAUSE] = cause;
}

// Entry for interrupts and exceptions. The caller sets PC and the Normal instruction mode.
pub fn enter_trap(sys: &mut [u32], epc: u32, cause: u32, mode: InstructionMode)
    ensures { Traps sys.old sys.new epc cause mode }
{
    let Some(sys) = sys.as_mut_array::<SYSTEM_WORDS>() else {
        return;
    };
    let user = sys[USER];
    save(sys, epc, cause, mode);
    if user % 2 == 1 {
        exchange(sys);
    }
}

// IRET.
pub fn leave_trap(sys: &mut [u32]) -> Resumed
    ensures { Returns sys.old sys.new result }
{
    let Some(sys) = sys.as_mut_array::<SYSTEM_WORDS>() else {
        return Resumed {
            epc: 0,
            mode: InstructionMode::Normal,
        };
    };
    let user = sys[USER];
    let pu = sys[PU];
    let resumed = Resumed {
        epc: sys[EPC],
        mode: mode_of(sys[PSM] % 2 == 1),
    };
    sys[IE] = sys[PIE];
    if user % 2 == 1 {
        return resumed;
    }
    if pu % 2 == 1 {
        sys[USER] = 1;
        exchange(sys);
        return resumed;
    }
    resumed
}
