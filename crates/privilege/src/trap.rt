// Traps: entry, return, and the exchange of R28 to R30.
ghost use Rattle.std.specs.Prelude.{◌≡◌};
ghost use Rattle.privilege.specs.Trap.{bank_of, with_bank, exchanged, trapped, enters_user, returned};

use crate::state::{InstructionMode, SystemState};

// First banked register: R28 (SP), R29 (FP) and R30 (GP) are banked.
pub const BANK_FIRST: usize = 28;

// What a trap or an exchange of the banks leaves: R0 to R31 beside the state, which does not hold them, as the Rust has it.
#[derive(Drop)]
pub struct Trapped {
    pub sys: SystemState,
    pub reg: [u32; 32],
}

// What IRET leaves, with the PC and the instruction mode to resume.
#[derive(Drop)]
pub struct Returned {
    pub sys: SystemState,
    pub reg: [u32; 32],
    pub epc: u32,
    pub mode: InstructionMode,
}

// R28 to R30.
fn bank_of(reg: [u32; 32]) -> [u32; 3]
    ensures { result ≡ bank_of reg }
{
    [reg[28], reg[29], reg[30]]
}

// The registers with another bank in R28 to R30.
fn with_bank(reg: [u32; 32], bank: [u32; 3]) -> [u32; 32]
    ensures { result ≡ with_bank reg bank }
{
    let mut out = reg;
    out[28] = bank[0];
    out[29] = bank[1];
    out[30] = bank[2];
    out
}

impl SystemState {
    pub fn swap_bank(mut self, reg: [u32; 32]) -> Trapped
        ensures { result ≡ exchanged self reg }
    {
        let out = with_bank(reg, self.other_bank);
        self.other_bank = bank_of(reg);
        Trapped {
            sys: self,
            reg: out,
        }
    }

    // Entry for interrupts and exceptions. The caller sets PC and the Normal instruction mode.
    pub fn enter_trap(self, reg: [u32; 32], epc: u32, cause: u32, mode: InstructionMode) -> Trapped
        ensures { result ≡ trapped self reg epc cause mode }
    {
        let mut sys = self.with_status(false, self.ie, false, self.user, mode);
        sys.epc = epc;
        sys.cause = cause;
        if self.user {
            return sys.swap_bank(reg);
        }
        Trapped { sys, reg }
    }

    // IRET enters user mode only where PU is set and U is not.
    fn enters_user(self) -> bool
        ensures { result ≡ enters_user self }
    {
        self.pu & !self.user
    }

    // IRET.
    pub fn leave_trap(mut self, reg: [u32; 32]) -> Returned
        ensures { result ≡ returned self reg }
    {
        let epc = self.epc;
        let mode = self.psm;
        let enters = self.enters_user();
        self.ie = self.pie;
        if enters {
            let Trapped { mut sys, reg } = self.swap_bank(reg);
            sys.user = true;
            return Returned {
                sys,
                reg,
                epc,
                mode,
            };
        }
        Returned {
            sys: self,
            reg,
            epc,
            mode,
        }
    }
}
