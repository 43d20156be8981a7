// Exceptions, under C names: each is named by a number, and the fields that it lacks are ignored.
ghost use Rattle.std.specs.Prelude.{◌≡◌};
ghost use Rattle.mmu.specs.Exception.{cause_of, vector_of};
ghost use Rattle.bridge.specs.Exception.{exception_of, vector_number};
ghost use Rattle.bridge.specs.Mmu.{access_of};

use crate::mmu_calls::access_of;
use mmu::exception::{Access, Exception, Vector};

#[tactic(auto, unfolding(crate::specs::Exception::exception_of))]
fn exception_of(number: u32, imm: u16, access: Access, protection: bool, addr: u32) -> Exception
    ensures { result ≡ exception_of number imm access protection addr }
{
    match number {
        0 => Exception::IllegalInstruction,
        1 => Exception::BusError,
        2 => Exception::Syscall(imm),
        3 => Exception::PrivilegedInstruction,
        4 => Exception::ProtectionFault(access),
        _ => Exception::PageFault {
            access,
            protection,
            addr,
        },
    }
}

#[tactic(auto, unfolding(crate::specs::Exception::vector_number))]
fn vector_number(vector: Vector) -> u32
    ensures { result ≡ vector_number vector }
{
    vector as u32
}

#[unsafe(no_mangle)]
pub extern "C" fn exception_cause(
    number: u32,
    imm: u16,
    access: u32,
    protection: bool,
    addr: u32,
) -> u32
    ensures { result ≡ cause_of (exception_of number imm (access_of access) protection addr) }
{
    exception_of(number, imm, access_of(access), protection, addr).cause()
}

// 0 illegal, 1 bus, 2 syscall.
#[unsafe(no_mangle)]
pub extern "C" fn exception_vector(
    number: u32,
    imm: u16,
    access: u32,
    protection: bool,
    addr: u32,
) -> u32
    ensures { result ≡ vector_number (vector_of (exception_of number imm (access_of access) protection addr)) }
{
    vector_number(exception_of(number, imm, access_of(access), protection, addr).vector())
}
