// The debugger's view: a translation without side effects, and one TLB slot.
ghost use Rattle.std.specs.Prelude.{◌≡◌};
ghost use Rattle.memory.specs.Memory.{lent};
ghost use Rattle.mmu.specs.Vm.{slot_of};
ghost use Rattle.mmu.specs.Walk.{walk_of};
ghost use Rattle.privilege.specs.Debug.{flags_of, mapped_to, by_walk, by_slot, debug_translated, slot_view};

use crate::state::SystemState;
use crate::transfer::join;
use common::Refusal;
use memory::gate::admit;
use mmu::tlb::{TLB_ENTRIES, TlbEntry};
use mmu::walk::{PTE_R, PTE_U, PTE_W, PTE_X, WalkFault, walk};

#[derive(Drop)]
pub struct TlbFlags {
    pub read: bool,
    pub write: bool,
    pub execute: bool,
    pub user: bool,
}

// One TLB slot. The pages are addresses. An entry that is not valid shows its numbers too.
#[derive(Drop)]
pub struct TlbEntryView {
    pub index: usize,
    pub valid: bool,
    pub virtual_page: u32,
    pub physical_page: u32,
    pub flags: TlbFlags,
}

#[derive(Drop)]
pub enum DebugTranslation {
    Mapped {
        physical: u32,
        flags: TlbFlags,
        // Served by a TLB entry, otherwise by a walk.
        in_tlb: bool,
    },
    // No valid leaf: not valid, malformed, or a huge page.
    Unmapped,
    // A table word could not be read.
    BusError,
}

impl TlbFlags {
    // By its name, since `From<u32>` would not say that the number is a table word.
    fn from_pte(pte: u32) -> Self
        ensures { result ≡ flags_of pte }
    {
        Self {
            read: pte & PTE_R != 0,
            write: pte & PTE_W != 0,
            execute: pte & PTE_X != 0,
            user: pte & PTE_U != 0,
        }
    }
}

fn mapped(entry: TlbEntry, va: u32, in_tlb: bool) -> DebugTranslation
    ensures { result ≡ mapped_to entry va in_tlb }
{
    DebugTranslation::Mapped {
        physical: join(entry.ppn, va),
        flags: TlbFlags::from_pte(entry.flags),
        in_tlb,
    }
}

impl SystemState {
    // Translates in any mode, fills nothing and checks no permission.
    pub fn debug_translate(
        self,
        mem: &[u8],
        base: u32,
        va: u32,
    ) -> Result<DebugTranslation, Refusal>
        ensures { result ≡ debug_translated (lent base mem.now) self va }
    {
        admit(mem, base, true)?;
        Ok(self.debug_lookup(mem, base, va))
    }

    // The page's entry in the TLB, or what a walk finds.
    fn debug_lookup(self, mem: &[u8], base: u32, va: u32) -> DebugTranslation
        ensures { result ≡ by_slot self.vm va (walk_of (lent base mem.now) self.vm.ptbr va).walked (slot_of self.vm va) }
    {
        let vm = self.vm;
        match vm.lookup(va >> 12) {
            Some(i) => mapped(vm.tlb[i], va, true),
            None => self.debug_walk(mem, base, va),
        }
    }

    fn debug_walk(self, mem: &[u8], base: u32, va: u32) -> DebugTranslation
        ensures { result ≡ by_walk va (walk_of (lent base mem.now) self.vm.ptbr va).walked }
    {
        match walk(mem, base, self.vm.ptbr, va).walked {
            Ok(entry) => mapped(entry, va, false),
            Err(WalkFault::Missing) => DebugTranslation::Unmapped,
            Err(WalkFault::BusError) => DebugTranslation::BusError,
        }
    }

    // One slot's view, its index read modulo 16.
    pub fn tlb_entry(self, index: usize) -> TlbEntryView
        ensures { result ≡ slot_view self.vm index }
    {
        let vm = self.vm;
        let at = index % TLB_ENTRIES;
        let entry = vm.tlb[at];
        TlbEntryView {
            index: at,
            valid: entry.valid,
            virtual_page: entry.vpn << 12,
            physical_page: entry.ppn << 12,
            flags: TlbFlags::from_pte(entry.flags),
        }
    }
}
