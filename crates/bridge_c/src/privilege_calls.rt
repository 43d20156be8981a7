// The privilege state and R0 to R31, under C names. An enum does not cross into C, nor does an array of structs from
// another crate: the state crosses as a struct of its own.
ghost use Rattle.std.specs.Prelude.{◌≡◌};
ghost use Rattle.memory.specs.Memory.{lent};
ghost use Rattle.privilege.specs.Access.{allows_of};
ghost use Rattle.privilege.specs.Debug.{debug_translated, slot_view};
ghost use Rattle.bridge.specs.Mmu.{access_of};
ghost use Rattle.bridge.specs.Privilege.{state_of, translated_numbers, view_numbers};

use bridge::privilege_calls::{PrivilegeSlot, PrivilegeState, PrivilegeTranslated};

#[unsafe(no_mangle)]
pub extern "C" fn privilege_allows(p: PrivilegeState, addr: u32, len: u32, access: u32) -> bool
    ensures { result ≡ allows_of (state_of p) addr len (access_of access) }
{
    bridge::privilege_calls::privilege_allows(p, addr, len, access)
}

#[unsafe(no_mangle)]
pub extern "C" fn privilege_debug_translate(
    p: PrivilegeState,
    mem: &[u8],
    base: u32,
    va: u32,
) -> PrivilegeTranslated
    ensures { result ≡ translated_numbers (debug_translated (lent base mem.now) (state_of p) va) }
{
    bridge::privilege_calls::privilege_debug_translate(p, mem, base, va)
}

#[unsafe(no_mangle)]
pub extern "C" fn privilege_tlb_entry(p: PrivilegeState, index: usize) -> PrivilegeSlot
    ensures { result ≡ view_numbers (slot_view (state_of p).vm index) }
{
    bridge::privilege_calls::privilege_tlb_entry(p, index)
}
