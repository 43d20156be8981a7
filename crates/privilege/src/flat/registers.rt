// System registers where the words stand, as MFSR and MTSR reach them. These functions check no privilege.
ghost use Rattle.std.specs.Prelude.{◌≡◌, ◌<◌};
ghost use Rattle.mmu.specs.Vm.{flushed};
ghost use Rattle.privilege.specs.Flat.{sys_at, reg_at, Becomes, Leaves, ReadsSr, WritesSr};
ghost use Rattle.privilege.specs.Registers.{region_field, user_read, user_written, region_read, region_written};
ghost use Rattle.privilege.specs.State.{status_of, status_set, with_vm};

use crate::flat::regions::{region_at, write_field};
use crate::flat::{CAUSE, EPC, IE, OTHER_BANK, PIE, PSM, PU, REG, REGIONS, SYSTEM_WORDS, USER, VM};
use crate::registers::{
    SR_CAUSE, SR_EPC, SR_PTBR, SR_STATUS, SR_TLBFLUSH, SR_TLBINV, SR_UFP, SR_UGP, SR_USP, SR_VCTL,
    SR_VFAULT, region_field,
};
use crate::state::{PAGE_SIZE, status_word};
use crate::trap::BANK_FIRST;
use common::Refusal;
use mmu::flat::{ENABLED, PTBR, VFAULT, flush, invalidate};

fn status(sys: &[u32; SYSTEM_WORDS]) -> u32
    ensures { result ≡ status_of (sys_at sys.now) }
{
    status_word(
        sys[IE] % 2 == 1,
        sys[PIE] % 2 == 1,
        sys[USER] % 2 == 1,
        sys[PU] % 2 == 1,
        sys[PSM] % 2 == 1,
    )
}

// U is read-only.
fn set_status(sys: &mut [u32; SYSTEM_WORDS], value: u32)
    ensures { Becomes sys.old sys.new (status_set (sys_at sys.old) value) (reg_at sys.old) }
{
    sys[IE] = value % 2;
    sys[PIE] = value / 2 % 2;
    sys[PU] = value / 8 % 2;
    sys[PSM] = value / 16 % 2;
}

// The user's R28 to R30: in user mode the live registers, else the saved bank.
fn read_user(sys: &[u32; SYSTEM_WORDS], index: usize) -> u32
    requires { index < 3 }
    ensures { result ≡ user_read (sys_at sys.now) index (reg_at sys.now) }
{
    if sys[USER] % 2 == 1 {
        return sys[REG + BANK_FIRST + index];
    }
    sys[OTHER_BANK + index]
}

fn write_user(sys: &mut [u32; SYSTEM_WORDS], index: usize, value: u32) -> Result<(), Refusal>
    requires { index < 3 }
    ensures { Leaves sys.new result (user_written (sys_at sys.old) index value (reg_at sys.old)) }
{
    if sys[USER] % 2 == 1 {
        sys[REG + BANK_FIRST + index] = value;
        return Ok(());
    }
    sys[OTHER_BANK + index] = value;
    Ok(())
}

fn read_region(sys: &[u32; SYSTEM_WORDS], sr: u16) -> Result<u32, Refusal>
    ensures { result ≡ region_read (sys_at sys.now) (region_field sr) }
{
    let (n, field) = region_field(sr).ok_or(Refusal::Register)?;
    Ok(region_at(&sys[REGIONS..VM], n).field(field))
}

fn write_region(sys: &mut [u32; SYSTEM_WORDS], sr: u16, value: u32) -> Result<(), Refusal>
    ensures { Leaves sys.new result (region_written (sys_at sys.old) (reg_at sys.old) value (region_field sr)) }
{
    let (n, field) = region_field(sr).ok_or(Refusal::Register)?;
    write_field(&mut sys[REGIONS..VM], n, field, value);
    Ok(())
}

fn flush_vm(sys: &mut [u32; SYSTEM_WORDS])
    ensures { Becomes sys.old sys.new (with_vm (sys_at sys.old) (flushed (sys_at sys.old).vm)) (reg_at sys.old) }
{
    flush(&mut sys[VM..REG]);
}

// MFSR. Each arm is one call or word, as MTSR's are: a table of functions would be no plainer.
pub fn read_sr(sys: &[u32], sr: u16) -> Result<u32, Refusal>
    ensures { ReadsSr sys.now sr result }
{
    let Some(sys) = sys.as_array::<SYSTEM_WORDS>() else {
        return Err(Refusal::Register);
    };
    match sr {
        SR_STATUS => Ok(status(sys)),
        SR_EPC => Ok(sys[EPC]),
        SR_CAUSE => Ok(sys[CAUSE]),
        SR_USP => Ok(read_user(sys, 0)),
        SR_UFP => Ok(read_user(sys, 1)),
        SR_UGP => Ok(read_user(sys, 2)),
        SR_VCTL => Ok(sys[VM + ENABLED] % 2),
        SR_PTBR => Ok(sys[VM + PTBR]),
        SR_VFAULT => Ok(sys[VM + VFAULT]),
        SR_TLBFLUSH => Ok(0),
        SR_TLBINV => Ok(0),
        _ => read_region(sys, sr),
    }
}

// MTSR. TLBINV takes an address; TLBFLUSH flushes for any value.
pub fn write_sr(sys: &mut [u32], sr: u16, value: u32) -> Result<(), Refusal>
    ensures { WritesSr sys.old sys.new sr value result }
{
    let Some(sys) = sys.as_mut_array::<SYSTEM_WORDS>() else {
        return Err(Refusal::Register);
    };
    match sr {
        SR_STATUS => {
            set_status(sys, value);
            Ok(())
        }
        SR_EPC => {
            sys[EPC] = value;
            Ok(())
        }
        SR_CAUSE => {
            sys[CAUSE] = value;
            Ok(())
        }
        SR_USP => write_user(sys, 0, value),
        SR_UFP => write_user(sys, 1, value),
        SR_UGP => write_user(sys, 2, value),
        SR_VCTL => {
            sys[VM + ENABLED] = value % 2;
            Ok(())
        }
        SR_PTBR => {
            sys[VM + PTBR] = value & !(PAGE_SIZE - 1);
            flush_vm(sys);
            Ok(())
        }
        SR_VFAULT => {
            sys[VM + VFAULT] = value;
            Ok(())
        }
        SR_TLBFLUSH => {
            flush_vm(sys);
            Ok(())
        }
        SR_TLBINV => {
            invalidate(&mut sys[VM..REG], value);
            Ok(())
        }
        _ => write_region(sys, sr, value),
    }
}
