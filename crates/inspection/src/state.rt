// The state in seven lines: `S`, the part's name, its numbers.
use crate::buffer::Buffer;
use digest::{FNV_START, fnv_byte, fnv_words};
use machine::state::Machine;
use mmu::tlb::TlbEntry;
use privilege::region::Region;

pub const LINES: u32 = 7;

fn put_region(out: &mut Buffer, region: &Region) {
    out.push_words(&[region.start, region.end]);
    out.push_hex(b' ', region.flags, 1);
}

// A page number has at most 20 bits.
fn put_entry(out: &mut Buffer, entry: &TlbEntry) {
    out.push_hex(b' ', entry.valid as u32, 1);
    out.push_hex(b':', entry.vpn, 5);
    out.push_hex(b':', entry.ppn, 5);
    out.push_hex(b':', entry.flags, 2);
}

fn mem_digest(mem: &[u8]) -> u32 {
    mem.iter().fold(FNV_START, |h, &byte| fnv_byte(h, byte))
}

// A machine and its memory.
#[derive(Drop)]
pub struct State<'a> {
    pub machine: &'a Machine,
    pub mem: &'a [u8],
}

impl State<'_> {
    // STATUS, EPC, CAUSE; R28 to R30 of the mode that is not current; VCTL, PTBR, VFAULT and the next victim.
    fn put_system(&self, out: &mut Buffer) {
        let sys = &self.machine.sys;
        let vm = &sys.vm;
        out.push(b"S sys");
        out.push_words(&[sys.status(), sys.epc, sys.cause]);
        out.push_words(&sys.other_bank);
        out.push_hex(b' ', vm.enabled as u32, 1);
        out.push_words(&[vm.ptbr, vm.vfault]);
        out.push_decimal(vm.next_victim as u64);
    }

    fn put_regions(&self, out: &mut Buffer) {
        out.push(b"\nS rgn");
        for region in &self.machine.sys.regions {
            put_region(out, region);
        }
    }

    fn put_tlb(&self, out: &mut Buffer) {
        out.push(b"\nS tlb");
        for entry in &self.machine.sys.vm.tlb {
            put_entry(out, entry);
        }
    }

    fn put_controller(&self, out: &mut Buffer) {
        let c = &self.machine.irqc;
        out.push(b"\nS irq");
        for word in [c.pending, c.enable, c.source_level] {
            out.push_hex(b' ', word as u32, 4);
        }
    }

    // Which banks are enabled; the hits and misses of each, the penalty, the digests of the tags.
    fn put_cache(&self, out: &mut Buffer) {
        let cache = &self.machine.cache;
        let (i, d) = (&cache.i, &cache.d);
        out.push(b"\nS cac");
        out.push_hex(b' ', i.enabled as u32, 1);
        out.push_hex(b' ', d.enabled as u32, 1);
        out.push_words(&[i.hits, i.misses, d.hits, d.misses, cache.miss_penalty]);
        for bank in [i, d] {
            out.push_words(&[fnv_words(FNV_START, &bank.tags)]);
        }
    }

    pub fn put(&self, out: &mut Buffer) {
        self.put_system(out);
        self.put_regions(out);
        self.put_tlb(out);
        self.put_controller(out);
        self.put_cache(out);
        out.push(b"\nS reg");
        out.push_words(&self.machine.reg);
        out.push(b"\nS mem");
        out.push_words(&[mem_digest(self.mem)]);
        out.push(b"\n");
    }
}
