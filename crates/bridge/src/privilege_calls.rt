// The privilege state and R0 to R31, under C names. An enum does not cross into C, nor does an array of structs from
// another crate: the state crosses as a struct of its own.
ghost use Rattle.std.specs.Prelude.{◌≡◌};
ghost use Rattle.memory.specs.Memory.{lent};
ghost use Rattle.privilege.specs.Access.{allows_of};
ghost use Rattle.privilege.specs.Debug.{debug_translated, slot_view};
ghost use Rattle.bridge.specs.Mmu.{access_of};
ghost use Rattle.bridge.specs.Privilege.{regions_of, starts_of, ends_of, flags_of, state_of, state_numbers, unmapped, mapped_numbers, translated_numbers, view_numbers};

use crate::mmu_calls::access_of;
use common::Refusal;
use mmu::vm::Vm;
use privilege::debug::{DebugTranslation, TlbEntryView, TlbFlags};
use privilege::region::Region;
use privilege::state::{SystemState, is_short, mode_of};

// `short` is the instruction mode that IRET restores; region n has `starts[n]`, `ends[n]` and `flags[n]`.
#[repr(C)]
#[derive(Drop)]
pub struct PrivilegeState {
    pub ie: bool,
    pub pie: bool,
    pub user: bool,
    pub pu: bool,
    pub short: bool,
    pub epc: u32,
    pub cause: u32,
    pub other_bank: [u32; 3],
    pub starts: [u32; 8],
    pub ends: [u32; 8],
    pub flags: [u32; 8],
    pub vm: Vm,
    pub reg: [u32; 32],
}

// One by one: neither by `array::from_fn`, whose contract does not tie what its closure borrows, nor by a loop over the regions did the proof close.
fn regions_of(s: [u32; 8], e: [u32; 8], f: [u32; 8]) -> [Region; 8]
    ensures { result ≡ regions_of s e f }
{
    [
        Region {
            start: s[0],
            end: e[0],
            flags: f[0],
        },
        Region {
            start: s[1],
            end: e[1],
            flags: f[1],
        },
        Region {
            start: s[2],
            end: e[2],
            flags: f[2],
        },
        Region {
            start: s[3],
            end: e[3],
            flags: f[3],
        },
        Region {
            start: s[4],
            end: e[4],
            flags: f[4],
        },
        Region {
            start: s[5],
            end: e[5],
            flags: f[5],
        },
        Region {
            start: s[6],
            end: e[6],
            flags: f[6],
        },
        Region {
            start: s[7],
            end: e[7],
            flags: f[7],
        },
    ]
}

fn starts_of(l: [Region; 8]) -> [u32; 8]
    ensures { result ≡ starts_of l }
{
    l.map(|region| region.start)
}

fn ends_of(l: [Region; 8]) -> [u32; 8]
    ensures { result ≡ ends_of l }
{
    l.map(|region| region.end)
}

fn flags_of(l: [Region; 8]) -> [u32; 8]
    ensures { result ≡ flags_of l }
{
    l.map(|region| region.flags)
}

// The state that has crossed. The definitions have these names, and each function is called at one or two places: `From` would hide them.
#[tactic(auto, unfolding(crate::specs::Privilege::state_of))]
pub fn state_of(p: PrivilegeState) -> SystemState
    ensures { result ≡ state_of p }
{
    let other_bank = p.other_bank;
    let starts = p.starts;
    let ends = p.ends;
    let flags = p.flags;
    let vm = p.vm;
    SystemState {
        ie: p.ie,
        pie: p.pie,
        user: p.user,
        pu: p.pu,
        psm: mode_of(p.short),
        epc: p.epc,
        cause: p.cause,
        other_bank,
        regions: regions_of(starts, ends, flags),
        vm,
    }
}

// A state and the registers, ready to cross.
#[tactic(auto, unfolding(crate::specs::Privilege::state_numbers))]
pub fn state_numbers(s: SystemState, reg: [u32; 32]) -> PrivilegeState
    ensures { result ≡ state_numbers s reg }
{
    let other_bank = s.other_bank;
    let regions = s.regions;
    let vm = s.vm;
    let psm = s.psm;
    PrivilegeState {
        ie: s.ie,
        pie: s.pie,
        user: s.user,
        pu: s.pu,
        short: is_short(psm),
        epc: s.epc,
        cause: s.cause,
        other_bank,
        starts: starts_of(regions),
        ends: ends_of(regions),
        flags: flags_of(regions),
        vm,
        reg,
    }
}

// A debugger's translation: the numbers of a mapped address, or which of the others it is. A refusal is its number.
#[repr(C)]
#[derive(Drop)]
pub struct PrivilegeTranslated {
    pub refusal: u32,
    pub bus_error: bool,
    pub mapped: bool,
    pub in_tlb: bool,
    pub read: bool,
    pub write: bool,
    pub execute: bool,
    pub user: bool,
    pub physical: u32,
}

// One slot's view.
#[repr(C)]
#[derive(Drop)]
pub struct PrivilegeSlot {
    pub index: usize,
    pub valid: bool,
    pub virtual_page: u32,
    pub physical_page: u32,
    pub read: bool,
    pub write: bool,
    pub execute: bool,
    pub user: bool,
}

fn unmapped_numbers(refusal: u32, bus_error: bool) -> PrivilegeTranslated
    ensures { result ≡ unmapped refusal bus_error }
{
    PrivilegeTranslated {
        refusal,
        bus_error,
        mapped: false,
        in_tlb: false,
        read: false,
        write: false,
        execute: false,
        user: false,
        physical: 0,
    }
}

fn mapped_numbers(physical: u32, flags: TlbFlags, in_tlb: bool) -> PrivilegeTranslated
    ensures { result ≡ mapped_numbers physical flags in_tlb }
{
    PrivilegeTranslated {
        refusal: 0,
        bus_error: false,
        mapped: true,
        in_tlb,
        read: flags.read,
        write: flags.write,
        execute: flags.execute,
        user: flags.user,
        physical,
    }
}

#[tactic(auto, unfolding(crate::specs::Privilege::translated_numbers))]
fn translated_numbers(t: Result<DebugTranslation, Refusal>) -> PrivilegeTranslated
    ensures { result ≡ translated_numbers t }
{
    match t {
        Ok(
            DebugTranslation::Mapped {
                physical,
                flags,
                in_tlb,
            },
        ) => mapped_numbers(physical, flags, in_tlb),
        Ok(DebugTranslation::Unmapped) => unmapped_numbers(0, false),
        Ok(DebugTranslation::BusError) => unmapped_numbers(0, true),
        Err(r) => unmapped_numbers(r.number(), false),
    }
}

#[tactic(auto, unfolding(crate::specs::Privilege::view_numbers))]
fn view_numbers(v: TlbEntryView) -> PrivilegeSlot
    ensures { result ≡ view_numbers v }
{
    let flags = v.flags;
    PrivilegeSlot {
        index: v.index,
        valid: v.valid,
        virtual_page: v.virtual_page,
        physical_page: v.physical_page,
        read: flags.read,
        write: flags.write,
        execute: flags.execute,
        user: flags.user,
    }
}

#[unsafe(no_mangle)]
pub extern "C" fn privilege_allows(p: PrivilegeState, addr: u32, len: u32, access: u32) -> bool
    ensures { result ≡ allows_of (state_of p) addr len (access_of access) }
{
    state_of(p).allows(addr, len, access_of(access))
}

#[unsafe(no_mangle)]
pub extern "C" fn privilege_debug_translate(
    p: PrivilegeState,
    mem: &[u8],
    base: u32,
    va: u32,
) -> PrivilegeTranslated
    ensures { result ≡ translated_numbers (debug_translated (lent base mem.now) (state_of p) va) }
{
    translated_numbers(state_of(p).debug_translate(mem, base, va))
}

#[unsafe(no_mangle)]
pub extern "C" fn privilege_tlb_entry(p: PrivilegeState, index: usize) -> PrivilegeSlot
    ensures { result ≡ view_numbers (slot_view (state_of p).vm index) }
{
    view_numbers(state_of(p).tlb_entry(index))
}
