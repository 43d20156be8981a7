// Extension V's state: control registers and the TLB.
ghost use Rattle.std.specs.Prelude.{◌≡◌};
ghost use Rattle.mmu.specs.Tlb.{first_match};
ghost use Rattle.mmu.specs.Vm.{new_vm, filled, flushed, invalidated, frame_of};

use crate::tlb;
use crate::tlb::{TLB_ENTRIES, TlbEntry};

#[repr(C)]
#[derive(Clone, Copy)]
pub struct Vm {
    pub enabled: bool,
    pub ptbr: u32,
    pub vfault: u32,
    pub tlb: [TlbEntry; 16],
    // The slot that the next fill takes, read modulo 16.
    pub next_victim: usize,
}

impl Vm {
    pub fn new() -> Self
        ensures { result ≡ new_vm }
    {
        let tlb = tlb::empty();
        Self {
            enabled: false,
            ptbr: 0,
            vfault: 0,
            tlb,
            next_victim: 0,
        }
    }

    #[tactic(auto, unfolding(crate::specs::Vm::flushed))]
    pub fn flush(mut self) -> Self
        ensures { result ≡ flushed self }
    {
        let old = self.tlb;
        let left = tlb::flush(old);
        self.tlb = left;
        self.next_victim = 0;
        self
    }

    #[tactic(auto, unfolding(crate::specs::Vm::invalidated))]
    pub fn invalidate(mut self, va: u32) -> Self
        ensures { result ≡ invalidated self va }
    {
        let old = self.tlb;
        let left = tlb::invalidate(old, va >> 12);
        self.tlb = left;
        self
    }

    pub fn lookup(self, vpn: u32) -> Option<usize>
        ensures { result ≡ first_match vpn 0 self.tlb }
    {
        let entries = self.tlb;
        tlb::lookup(entries, vpn)
    }

    // The page number that a resident page leads to. It is 0 where none is: there the Rust reads page 0 too.
    pub fn frame_of(self, va: u32) -> u32
        ensures { result ≡ frame_of self va }
    {
        let slot = self.lookup(va >> 12);
        match slot {
            Some(i) => self.tlb[i].ppn,
            None => 0,
        }
    }

    // The victim's slot is taken even where another is free.
    #[tactic(auto, unfolding(crate::specs::Vm::filled))]
    pub fn fill(mut self, entry: TlbEntry) -> Self
        ensures { result ≡ filled self entry }
    {
        let old = self.tlb;
        let slot = self.next_victim;
        let filled = tlb::fill(old, slot, entry);
        self.tlb = filled;
        self.next_victim = (slot % TLB_ENTRIES + 1) % TLB_ENTRIES;
        self
    }
}
