// Exceptions, under C names: each is named by a number, and the fields that it lacks are ignored.
ghost use Rattle.std.specs.Prelude.{◌≡◌};
ghost use Rattle.mmu.specs.Exception.{cause_of, vector_of};
ghost use Rattle.bridge.specs.Exception.{exception_of, vector_number};
ghost use Rattle.bridge.specs.Mmu.{access_of};

#[unsafe(no_mangle)]
pub extern "C" fn exception_cause(
    number: u32,
    imm: u16,
    access: u32,
    protection: bool,
    addr: u32,
) -> u32
    ensures { result ≡ cause_of (exception_of number imm (access_of access) protection addr) }
{
    bridge::exception_calls::exception_cause(number, imm, access, protection, addr)
}

// 0 illegal, 1 bus, 2 syscall.
#[unsafe(no_mangle)]
pub extern "C" fn exception_vector(
    number: u32,
    imm: u16,
    access: u32,
    protection: bool,
    addr: u32,
) -> u32
    ensures { result ≡ vector_number (vector_of (exception_of number imm (access_of access) protection addr)) }
{
    bridge::exception_calls::exception_vector(number, imm, access, protection, addr)
}
