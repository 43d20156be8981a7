// What a denied access or an instruction raises.
ghost use Rattle.std.specs.Prelude.{◌≡◌, ◌+◌, ◌*◌, ◌^◌, ◌<◌};
ghost use Rattle.mmu.specs.Exception.{region_bit, access_bit, cause_of, vector_of};

use crate::walk::{PTE_R, PTE_W, PTE_X};

// Set in CAUSE for every exception; interrupts leave it clear.
pub const CAUSE_EXCEPTION: u32 = 0x8000_0000;

// The kind of a user's access. Its number is the bit of a region's FLAGS, and of CAUSE's detail.
#[derive(Clone, Copy)]
pub enum Access {
    Read = 1,
    Write = 2,
    Fetch = 4,
}

#[derive(Clone, Copy)]
pub enum Exception {
    IllegalInstruction,
    BusError,
    // The low byte is the call's number, the high one its context.
    Syscall(u16),
    PrivilegedInstruction,
    ProtectionFault(Access),
    // `protection` tells a present leaf that denies the access from a missing translation.
    PageFault {
        access: Access,
        protection: bool,
        addr: u32,
    },
}

// Which vector word holds the handler's address.
#[derive(Drop)]
pub enum Vector {
    Illegal,
    Bus,
    Syscall,
}

// The access as a number.
pub fn region_bit(access: Access) -> u32
    ensures { result ≡ region_bit access }
{
    access as u32
}

// The same as the bit of a leaf, where each has a name.
pub fn pte_bit(access: Access) -> u32
    ensures { result ≡ 2 ^ access_bit access }
{
    match access {
        Access::Read => PTE_R,
        Access::Write => PTE_W,
        Access::Fetch => PTE_X,
    }
}

fn with_code(code: u32, detail: u32) -> u32
    requires { (code < 8) × (detail < 65536) }
    ensures { result ≡ 0x8000_0000 + 65536 * code + detail }
{
    CAUSE_EXCEPTION + 65536 * code + detail
}

impl Exception {
    #[tactic(auto, unfolding(crate::specs::Exception::cause_of))]
    pub fn cause(self) -> u32
        ensures { result ≡ cause_of self }
    {
        match self {
            Exception::IllegalInstruction => with_code(1, 0),
            Exception::BusError => with_code(2, 0),
            Exception::Syscall(imm) => with_code(3, imm as u32),
            Exception::PrivilegedInstruction => with_code(4, 0),
            Exception::ProtectionFault(access) => with_code(5, region_bit(access)),
            Exception::PageFault {
                access,
                protection,
                ..
            } => with_code(6, region_bit(access) + if protection { 8 } else { 0 }),
        }
    }

    #[tactic(auto, unfolding(crate::specs::Exception::vector_of))]
    pub fn vector(self) -> Vector
        ensures { result ≡ vector_of self }
    {
        match self {
            Exception::IllegalInstruction | Exception::PrivilegedInstruction => Vector::Illegal,
            Exception::BusError | Exception::ProtectionFault(_) | Exception::PageFault { .. } => {
                Vector::Bus
            }
            Exception::Syscall(_) => Vector::Syscall,
        }
    }
}
