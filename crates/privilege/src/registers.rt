// System registers, as MFSR and MTSR reach them. These functions check no privilege.
ghost use Rattle.std.specs.Prelude.{◌≡◌, ◌<◌};
ghost use Rattle.privilege.specs.Registers.{region_field, user_read, user_written, region_read, region_written, written, sr_read, sr_written};

use crate::region::{REGION_COUNT, write_field};
use crate::state::{PAGE_SIZE, SystemState};
use crate::trap::BANK_FIRST;
use common::Refusal;

pub const SR_STATUS: u16 = 0x00;

pub const SR_EPC: u16 = 0x01;

pub const SR_CAUSE: u16 = 0x02;

pub const SR_USP: u16 = 0x08;

pub const SR_UFP: u16 = 0x09;

pub const SR_UGP: u16 = 0x0A;

// Region n has 0x10 + 4n (START), + 1 (END) and + 2 (FLAGS).
pub const SR_REGION_BASE: u16 = 0x10;

pub const SR_VCTL: u16 = 0x40;

pub const SR_PTBR: u16 = 0x41;

pub const SR_VFAULT: u16 = 0x42;

pub const SR_TLBFLUSH: u16 = 0x43;

pub const SR_TLBINV: u16 = 0x44;

pub const VCTL_EN: u32 = 1;

#[derive(Drop)]
pub struct SrWritten {
    pub sys: SystemState,
    pub reg: [u32; 32],
    pub answer: Result<(), Refusal>,
}

// A region's number and the field's place in it.
pub fn region_field(sr: u16) -> Option<(usize, usize)>
    ensures { result ≡ region_field sr }
{
    if sr < SR_REGION_BASE {
        return None;
    }
    let offset = (sr - SR_REGION_BASE) as usize;
    let region = offset / 4;
    let field = offset % 4;
    if region >= REGION_COUNT {
        return None;
    }
    if field < 3 {
        Some((region, field))
    } else {
        None
    }
}

fn done(sys: SystemState, reg: [u32; 32]) -> SrWritten
    ensures { result ≡ written sys reg }
{
    SrWritten {
        sys,
        reg,
        answer: Ok(()),
    }
}

impl SystemState {
    // The user's R28 to R30: in user mode the live registers, else the saved bank.
    fn read_user(self, index: usize, reg: [u32; 32]) -> u32
        requires { index < 3 }
        ensures { result ≡ user_read self index reg }
    {
        if self.user {
            return reg[BANK_FIRST + index];
        }
        self.other_bank[index]
    }

    fn write_user(mut self, index: usize, value: u32, reg: [u32; 32]) -> SrWritten
        requires { index < 3 }
        ensures { result ≡ user_written self index value reg }
    {
        if self.user {
            let mut out = reg;
            out[BANK_FIRST + index] = value;
            return done(self, out);
        }
        self.other_bank[index] = value;
        done(self, reg)
    }

    fn read_region(self, sr: u16) -> Result<u32, Refusal>
        ensures { result ≡ region_read self (region_field sr) }
    {
        let (n, field) = region_field(sr).ok_or(Refusal::Register)?;
        Ok(self.regions[n].field(field))
    }

    fn write_region(mut self, sr: u16, value: u32, reg: [u32; 32]) -> SrWritten
        ensures { result ≡ region_written self reg value (region_field sr) }
    {
        let Some((n, field)) = region_field(sr) else {
            return SrWritten {
                sys: self,
                reg,
                answer: Err(Refusal::Register),
            };
        };
        self.regions = write_field(self.regions, n, field, value);
        done(self, reg)
    }

    // MFSR. Each arm is one call or field, as MTSR's are: a table of functions would be no plainer.
    pub fn read_sr(self, sr: u16, reg: [u32; 32]) -> Result<u32, Refusal>
        ensures { result ≡ sr_read self sr reg }
    {
        match sr {
            SR_STATUS => Ok(self.status()),
            SR_EPC => Ok(self.epc),
            SR_CAUSE => Ok(self.cause),
            SR_USP => Ok(self.read_user(0, reg)),
            SR_UFP => Ok(self.read_user(1, reg)),
            SR_UGP => Ok(self.read_user(2, reg)),
            SR_VCTL => Ok(self.vm.enabled as u32),
            SR_PTBR => Ok(self.vm.ptbr),
            SR_VFAULT => Ok(self.vm.vfault),
            SR_TLBFLUSH => Ok(0),
            SR_TLBINV => Ok(0),
            _ => self.read_region(sr),
        }
    }

    // MTSR. TLBINV takes an address; TLBFLUSH flushes for any value.
    pub fn write_sr(mut self, sr: u16, value: u32, reg: [u32; 32]) -> SrWritten
        ensures { result ≡ sr_written self sr value reg }
    {
        match sr {
            SR_STATUS => done(self.set_status(value), reg),
            SR_EPC => {
                self.epc = value;
                done(self, reg)
            }
            SR_CAUSE => {
                self.cause = value;
                done(self, reg)
            }
            SR_USP => self.write_user(0, value, reg),
            SR_UFP => self.write_user(1, value, reg),
            SR_UGP => self.write_user(2, value, reg),
            SR_VCTL => {
                let on = value & VCTL_EN != 0;
                self.vm.enabled = on;
                done(self, reg)
            }
            SR_PTBR => {
                let ptbr = value & !(PAGE_SIZE - 1);
                self.vm.ptbr = ptbr;
                self.vm = self.vm.flush();
                done(self, reg)
            }
            SR_VFAULT => {
                self.vm.vfault = value;
                done(self, reg)
            }
            SR_TLBFLUSH => {
                self.vm = self.vm.flush();
                done(self, reg)
            }
            SR_TLBINV => {
                self.vm = self.vm.invalidate(value);
                done(self, reg)
            }
            _ => self.write_region(sr, value, reg),
        }
    }
}
