// Operations on the MMU's state and the lent memory.
use crate::answer::Answer;
use digest::{FNV_START, fnv_words};
use mmu::exception::Access;
use mmu::tlb::TlbEntry;
use mmu::vm::Vm;
use mmu::walk::{WalkFault, walk};
use script::Event;

// Added to a translation's flags if the TLB has it.
const IN_TLB: u32 = 0x100;

// The MMU's state, and the physical address at which the memory starts.
#[derive(Clone, Copy)]
pub struct Replay {
    pub vm: Vm,
    pub base: u32,
}

fn mapped(entry: TlbEntry, va: u32, flags: u32) -> Answer {
    Answer::Mapped {
        physical: (entry.ppn << 12) | (va % 4096),
        flags,
    }
}

impl Replay {
    // The state at the start: user mode's, with translation on.
    pub fn new(base: u32, ptbr: u32) -> Replay {
        let mut vm = Vm::new();
        vm.enabled = true;
        vm.ptbr = ptbr;
        Replay { vm, base }
    }

    fn check(&mut self, mem: &[u8], e: Event, access: Access) -> Answer {
        let checked = self
            .vm
            .check_pages(mem, self.base, e.a, e.size as u32, access);
        let reads = checked.reads;
        self.vm = checked.vm;
        match checked.verdict {
            Ok(()) => Answer::Allowed { reads },
            Err(exception) => Answer::Denied { exception, reads },
        }
    }

    // Looks up or walks, and fills nothing.
    fn translate(&self, mem: &[u8], va: u32) -> Answer {
        if let Some(i) = self.vm.lookup(va >> 12) {
            let entry = self.vm.tlb[i % 16];
            return mapped(entry, va, entry.flags | IN_TLB);
        }
        match walk(mem, self.base, self.vm.ptbr, va).walked {
            Ok(entry) => mapped(entry, va, entry.flags),
            Err(WalkFault::Missing) => Answer::Unmapped,
            Err(WalkFault::BusError) => Answer::BusError,
        }
    }

    // The word's bytes that are in the map; addresses step modulo 2^32.
    fn poke(&self, mem: &mut [u8], addr: u32, word: u32) {
        for (k, byte) in (0..4u32).zip(word.to_be_bytes()) {
            memory::put_byte(mem, self.base, addr.wrapping_add(k), byte);
        }
    }

    pub fn step(&mut self, mem: &mut [u8], e: Event) -> Answer {
        // Any byte is a kind, and each arm is one call: an enum or a table would name it twice.
        match e.kind {
            0 => return self.check(mem, e, Access::Read),
            1 => return self.check(mem, e, Access::Write),
            2 => return self.check(mem, e, Access::Fetch),
            3 => self.vm = self.vm.flush(),
            4 => self.vm = self.vm.invalidate(e.a),
            5 => self.vm.ptbr = e.a,
            6 => self.poke(mem, e.a, e.b),
            7 => return self.translate(mem, e.a),
            _ => {}
        }
        Answer::Nothing
    }

    // As in `privilege_replay`, whose digest goes on over more.
    pub fn tlb_digest(&self) -> u32 {
        let mut h = FNV_START;
        for entry in &self.vm.tlb {
            h = fnv_words(h, &[entry.valid as u32, entry.vpn, entry.ppn, entry.flags]);
        }
        h
    }
}
