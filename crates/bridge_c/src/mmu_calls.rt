// The MMU, under C names. An enum does not cross into C: an answer that is one crosses as numbers.
ghost use Rattle.std.specs.Prelude.{◌≡◌};
ghost use Rattle.memory.specs.Memory.{lent};
ghost use Rattle.mmu.specs.Tlb.{first_match};
ghost use Rattle.mmu.specs.Vm.{new_vm, flushed, invalidated};
ghost use Rattle.mmu.specs.Walk.{walk_of};
ghost use Rattle.mmu.specs.Check.{check_each, pages_of};
ghost use Rattle.bridge.specs.Mmu.{access_of, checked_numbers, slot_number, walked_numbers};

use bridge::mmu_calls::{MmuChecked, MmuWalked};
use mmu::vm::Vm;

#[unsafe(no_mangle)]
pub extern "C" fn mmu_new() -> Vm
    ensures { result ≡ new_vm }
{
    bridge::mmu_calls::mmu_new()
}

#[unsafe(no_mangle)]
pub extern "C" fn mmu_flush(vm: Vm) -> Vm
    ensures { result ≡ flushed vm }
{
    bridge::mmu_calls::mmu_flush(vm)
}

#[unsafe(no_mangle)]
pub extern "C" fn mmu_invalidate(vm: Vm, va: u32) -> Vm
    ensures { result ≡ invalidated vm va }
{
    bridge::mmu_calls::mmu_invalidate(vm, va)
}

// The slot of a page, 16 where it is not resident.
#[unsafe(no_mangle)]
pub extern "C" fn mmu_lookup(vm: Vm, vpn: u32) -> usize
    ensures { result ≡ slot_number (first_match vpn 0 vm.tlb) }
{
    bridge::mmu_calls::mmu_lookup(vm, vpn)
}

#[unsafe(no_mangle)]
pub extern "C" fn mmu_walk(mem: &[u8], base: u32, ptbr: u32, va: u32) -> MmuWalked
    ensures { result ≡ walked_numbers (walk_of (lent base mem.now) ptbr va) }
{
    bridge::mmu_calls::mmu_walk(mem, base, ptbr, va)
}

#[unsafe(no_mangle)]
pub extern "C" fn mmu_check(
    vm: Vm,
    mem: &[u8],
    base: u32,
    addr: u32,
    size: u32,
    access: u32,
) -> MmuChecked
    ensures { result ≡ checked_numbers (check_each (lent base mem.now) (access_of access) vm (pages_of addr size)) }
{
    bridge::mmu_calls::mmu_check(vm, mem, base, addr, size, access)
}
