// The MMU, under C names. An enum does not cross into C: an answer that is one crosses as numbers.
ghost use Rattle.std.specs.Prelude.{◌≡◌};
ghost use Rattle.memory.specs.Memory.{lent};
ghost use Rattle.mmu.specs.Tlb.{first_match};
ghost use Rattle.mmu.specs.Vm.{new_vm, flushed, invalidated};
ghost use Rattle.mmu.specs.Walk.{walk_of};
ghost use Rattle.mmu.specs.Check.{check_each, pages_of};
ghost use Rattle.bridge.specs.Mmu.{access_of, cause_number, address_of, fault_address, checked_numbers, slot_number, walked_numbers};

use mmu::exception::{Access, Exception};
use mmu::tlb::{TLB_ENTRIES, TlbEntry};
use mmu::vm::Vm;
use mmu::walk::{WalkFault, walk};

// A check's answer: CAUSE is 0 where the access is allowed, and the address is a page fault's, else 0.
#[repr(C)]
#[derive(Drop)]
pub struct MmuChecked {
    pub vm: Vm,
    pub cause: u32,
    pub addr: u32,
    pub reads: u32,
}

// A walk's answer: a valid entry where it led to a leaf, else an entry of zeros.
#[repr(C)]
#[derive(Drop)]
pub struct MmuWalked {
    pub entry: TlbEntry,
    pub bus_error: bool,
    pub reads: u32,
}

// 0 reads, 1 writes, any other fetches.
#[tactic(auto, unfolding(crate::specs::Mmu::access_of))]
pub fn access_of(number: u32) -> Access
    ensures { result ≡ access_of number }
{
    match number {
        0 => Access::Read,
        1 => Access::Write,
        _ => Access::Fetch,
    }
}

#[tactic(auto, unfolding(crate::specs::Mmu::cause_number))]
fn cause_number(verdict: Result<(), Exception>) -> u32
    ensures { result ≡ cause_number verdict }
{
    match verdict {
        Ok(()) => 0,
        Err(e) => e.cause(),
    }
}

// The address that a page fault carries.
#[tactic(auto, unfolding(crate::specs::Mmu::address_of))]
fn address_of(e: Exception) -> u32
    ensures { result ≡ address_of e }
{
    match e {
        Exception::PageFault { addr, .. } => addr,
        _ => 0,
    }
}

#[tactic(auto, unfolding(crate::specs::Mmu::fault_address))]
fn fault_address(verdict: Result<(), Exception>) -> u32
    ensures { result ≡ fault_address verdict }
{
    match verdict {
        Ok(()) => 0,
        Err(e) => address_of(e),
    }
}

#[unsafe(no_mangle)]
pub extern "C" fn mmu_new() -> Vm
    ensures { result ≡ new_vm }
{
    Vm::new()
}

#[unsafe(no_mangle)]
pub extern "C" fn mmu_flush(vm: Vm) -> Vm
    ensures { result ≡ flushed vm }
{
    vm.flush()
}

#[unsafe(no_mangle)]
pub extern "C" fn mmu_invalidate(vm: Vm, va: u32) -> Vm
    ensures { result ≡ invalidated vm va }
{
    vm.invalidate(va)
}

// The slot of a page, 16 where it is not resident.
#[unsafe(no_mangle)]
#[tactic(auto, unfolding(crate::specs::Mmu::slot_number))]
pub extern "C" fn mmu_lookup(vm: Vm, vpn: u32) -> usize
    ensures { result ≡ slot_number (first_match vpn 0 vm.tlb) }
{
    vm.lookup(vpn).unwrap_or(TLB_ENTRIES)
}

#[unsafe(no_mangle)]
#[tactic(auto, unfolding(crate::specs::Mmu::walked_by))]
pub extern "C" fn mmu_walk(mem: &[u8], base: u32, ptbr: u32, va: u32) -> MmuWalked
    ensures { result ≡ walked_numbers (walk_of (lent base mem.now) ptbr va) }
{
    let none = TlbEntry {
        valid: false,
        vpn: 0,
        ppn: 0,
        flags: 0,
    };
    let answer = walk(mem, base, ptbr, va);
    let walked = answer.walked;
    match walked {
        Ok(entry) => MmuWalked {
            entry,
            bus_error: false,
            reads: answer.reads,
        },
        Err(WalkFault::Missing) => MmuWalked {
            entry: none,
            bus_error: false,
            reads: answer.reads,
        },
        Err(WalkFault::BusError) => MmuWalked {
            entry: none,
            bus_error: true,
            reads: answer.reads,
        },
    }
}

#[tactic(auto, unfolding(crate::specs::Mmu::checked_numbers))]
#[unsafe(no_mangle)]
pub extern "C" fn mmu_check(
    vm: Vm,
    mem: &[u8],
    base: u32,
    addr: u32,
    size: u32,
    access: u32,
) -> MmuChecked
    ensures { result ≡ checked_numbers (check_each (lent base mem.now) (access_of access) vm (pages_of addr size)) }
{
    let checked = vm.check_pages(mem, base, addr, size, access_of(access));
    let after = checked.vm;
    let verdict = checked.verdict;
    MmuChecked {
        vm: after,
        cause: cause_number(verdict),
        addr: fault_address(verdict),
        reads: checked.reads,
    }
}
