// Extension V's state as 69 words that an owner lends: the enable bit, PTBR, VFAULT, the next victim's low and high half, and the TLB, four words an
// entry: the valid bit, the virtual and the physical page, the flags. Of a bit's word the lowest counts.
//
// A function has the name of its twin by value: that one says what is meant and hands the state back, this one changes it where it stands. Words of
// another number are left as they are.
ghost use Rattle.std.specs.Prelude.{◌≡◌, ◌+◌, ◌*◌, ◌/◌, ◌^◌, ◌<◌, length, slice_index_or, None, IfSome};
ghost use Rattle.layout.specs.Words.{Over, Reads};
ghost use Rattle.memory.specs.Memory.{lent};
ghost use Rattle.mmu.specs.Flat.{vm_words, no_pages, pages_is, CheckedPages, CheckedPage, WalkedPage, GrantsPage, GrantsWalk, vm_at, with_entry, with_registers, dropped_word};
ghost use Rattle.mmu.specs.Tlb.{no_entry, first_match};
ghost use Rattle.mmu.specs.Vm.{new_vm, filled, flushed, invalidated, frame_of, with_tlb};

use crate::check::{CPU_RESERVED_BASE, fault, grants, judge};
use crate::exception::{Access, Exception};
use crate::tlb::{TLB_ENTRIES, TlbEntry, empty};
use crate::vm::Vm;
use crate::walk::{WalkFault, walk};

pub const VM_WORDS: usize = 69;

pub const ENABLED: usize = 0;

pub const PTBR: usize = 1;

pub const VFAULT: usize = 2;

const VICTIM: usize = 3;

const VICTIM_HIGH: usize = 4;

const TLB: usize = 5;

// The words of an entry, and where they stand in it.
const ENTRY: usize = 4;

const VPN: usize = 1;

const PPN: usize = 2;

const FLAGS: usize = 3;

// What the check of an access's pages answers.
#[derive(Drop)]
pub struct Pages {
    // The physical page of the access's last page.
    pub frame: Result<u32, Exception>,
    pub reads: u32,
}

// An allowed access leads to the physical page, a denied one to none.
fn found(verdict: Result<(), Exception>, ppn: u32, reads: u32) -> Pages
    ensures { result ≡ pages_is verdict ppn reads }
{
    Pages {
        frame: verdict.and(Ok(ppn)),
        reads,
    }
}

// A number of two words.
fn wide(low: u32, high: u32) -> usize
    ensures { result ≡ low + 2 ^ 32 * high }
{
    (low as usize) + 0x1_0000_0000 * (high as usize)
}

// The entry in a slot.
fn entry_at(vm: &[u32; VM_WORDS], slot: usize) -> TlbEntry
    requires { slot < 16 }
    ensures { result ≡ slice_index_or (vm_at vm.now).tlb slot no_entry }
{
    let at = TLB + ENTRY * slot;
    TlbEntry {
        valid: vm[at] % 2 == 1,
        vpn: vm[at + VPN],
        ppn: vm[at + PPN],
        flags: vm[at + FLAGS],
    }
}

// The entry takes a slot.
fn put_entry(vm: &mut [u32; VM_WORDS], slot: usize, entry: TlbEntry)
    requires { slot < 16 }
    ensures { vm_at vm.new ≡ with_entry (vm_at vm.old) slot entry }
{
    let at = TLB + ENTRY * slot;
    vm[at] = u32::from(entry.valid);
    vm[at + VPN] = entry.vpn;
    vm[at + PPN] = entry.ppn;
    vm[at + FLAGS] = entry.flags;
}

// The slot of a page's first valid entry. An entry is four words, so the loop goes over the slots.
fn slot_of(vm: &[u32; VM_WORDS], vpn: u32) -> Option<usize>
    ensures found { result ≡ first_match vpn 0 (vm_at vm.now).tlb }
    ensures few { IfSome result (λ i. i < 16) }
{
    for i in 0..TLB_ENTRIES {
        let at = TLB + ENTRY * i;
        if vm[at + VPN] == vpn && vm[at] % 2 == 1 {
            return Some(i);
        }
    }
    None
}

// The physical page that a resident page leads to, 0 where none is.
pub fn frame_of(vm: &[u32], va: u32) -> u32
    ensures { Reads vm_words vm.now result 0 (frame_of (vm_at vm.now) va) }
{
    let Some(vm) = vm.as_array::<VM_WORDS>() else {
        return 0;
    };
    match slot_of(vm, va >> 12) {
        Some(slot) => entry_at(vm, slot).ppn,
        None => 0,
    }
}

// Sixteen entries, where they stand.
fn put_tlb(words: &mut [u32; VM_WORDS], tlb: [TlbEntry; 16])
    ensures { vm_at words.new ≡ with_tlb (vm_at words.old) tlb (vm_at words.old).next_victim }
{
    for (i, entry) in tlb.iter().enumerate() {
        put_entry(words, i, *entry);
    }
}

// The slot that the next fill takes.
fn put_victim(vm: &mut [u32; VM_WORDS], victim: usize)
    ensures { vm_at vm.new ≡ with_tlb (vm_at vm.old) (vm_at vm.old).tlb victim }
{
    vm[VICTIM] = (victim % 0x1_0000_0000) as u32;
    vm[VICTIM_HIGH] = (victim / 0x1_0000_0000) as u32;
}

// Every entry becomes one of zeros, and the first is the next to be filled.
pub fn flush(vm: &mut [u32])
    ensures { Over vm_words vm.old vm.new result result (vm_at vm.new ≡ flushed (vm_at vm.old)) }
{
    let Some(vm) = vm.as_mut_array::<VM_WORDS>() else {
        return;
    };
    put_tlb(vm, empty());
    put_victim(vm, 0);
}

// An entry's valid word, without its mark where the entry is the page's.
fn drop_word(valid: u32, vpn: u32, page: u32) -> u32
    ensures { result ≡ dropped_word page vpn valid }
{
    if vpn == page { 0 } else { valid }
}

// Every entry of the page loses its valid mark and nothing else. An entry is four words, so the loop goes over the slots.
pub fn invalidate(vm: &mut [u32], va: u32)
    ensures { Over vm_words vm.old vm.new result result (vm_at vm.new ≡ invalidated (vm_at vm.old) va) }
{
    let Some(vm) = vm.as_mut_array::<VM_WORDS>() else {
        return;
    };
    let page = va >> 12;
    for i in 0..16 {
        let at = TLB + ENTRY * i;
        vm[at] = drop_word(vm[at], vm[at + VPN], page);
    }
}

fn put_registers(words: &mut [u32; VM_WORDS], enabled: bool, ptbr: u32, vfault: u32)
    ensures { vm_at words.new ≡ with_registers (vm_at words.old) enabled ptbr vfault }
{
    words[ENABLED] = u32::from(enabled);
    words[PTBR] = ptbr;
    words[VFAULT] = vfault;
}

// The words of a state, where they stand.
pub fn pack(words: &mut [u32], vm: Vm)
    ensures { Over vm_words words.old words.new result result (vm_at words.new ≡ vm) }
{
    let Some(words) = words.as_mut_array::<VM_WORDS>() else {
        return;
    };
    let tlb = vm.tlb;
    put_tlb(words, tlb);
    put_victim(words, vm.next_victim);
    put_registers(words, vm.enabled, vm.ptbr, vm.vfault);
}

fn tlb_at(words: &[u32; VM_WORDS]) -> [TlbEntry; 16]
    ensures { result ≡ (vm_at words.now).tlb }
{
    let mut tlb = empty();
    for (i, entry) in tlb.iter_mut().enumerate() {
        *entry = entry_at(words, i);
    }
    tlb
}

// The state that words stand for.
pub fn unpack(words: &[u32]) -> Vm
    ensures { Reads vm_words words.now result new_vm (vm_at words.now) }
{
    let Some(words) = words.as_array::<VM_WORDS>() else {
        return Vm::new();
    };
    let tlb = tlb_at(words);
    Vm {
        enabled: words[ENABLED] % 2 == 1,
        ptbr: words[PTBR],
        vfault: words[VFAULT],
        tlb,
        next_victim: wide(words[VICTIM], words[VICTIM_HIGH]),
    }
}

// The victim's slot is taken even where another is free.
fn fill(vm: &mut [u32; VM_WORDS], entry: TlbEntry)
    ensures { vm_at vm.new ≡ filled (vm_at vm.old) entry }
{
    let slot = (vm[VICTIM] % 16) as usize;
    put_entry(vm, slot, entry);
    put_victim(vm, (slot + 1) % TLB_ENTRIES);
}

// A page that is not resident.
fn check_walk(vm: &mut [u32; VM_WORDS], mem: &[u8], base: u32, va: u32, access: Access) -> Pages
    ensures { WalkedPage (lent base mem.now) access va (vm_at vm.old) result (vm_at vm.new) }
{
    let answer = walk(mem, base, vm[PTBR], va);
    let walked = answer.walked;
    match walked {
        Ok(entry) => {
            fill(vm, entry);
            found(judge(entry, access, va), entry.ppn, answer.reads)
        }
        Err(WalkFault::Missing) => found(fault(access, false, va), 0, answer.reads),
        Err(WalkFault::BusError) => Pages {
            frame: Err(Exception::BusError),
            reads: answer.reads,
        },
    }
}

// One page of an access, of which `va` is the first address that is wanted.
fn check_page(vm: &mut [u32; VM_WORDS], mem: &[u8], base: u32, va: u32, access: Access) -> Pages
    ensures { CheckedPage (lent base mem.now) access va (vm_at vm.old) result (vm_at vm.new) }
{
    let page = va >> 12;
    if page << 12 >= CPU_RESERVED_BASE {
        return found(fault(access, true, va), 0, 0);
    }
    let Some(slot) = slot_of(vm, page) else {
        return check_walk(vm, mem, base, va, access);
    };
    let entry = entry_at(vm, slot);
    found(judge(entry, access, va), entry.ppn, 0)
}

// Each page that the access touches, in order; the first that denies it decides. As by value, the loop counts the pages itself.
pub fn check_pages(
    vm: &mut [u32],
    mem: &[u8],
    base: u32,
    addr: u32,
    size: u32,
    access: Access,
) -> Pages
    ensures { Over vm_words vm.old vm.new result no_pages (CheckedPages (lent base mem.now) access addr size (vm_at vm.old) result (vm_at vm.new)) }
{
    let Some(vm) = vm.as_mut_array::<VM_WORDS>() else {
        return Pages {
            frame: Err(Exception::BusError),
            reads: 0,
        };
    };
    let last = addr.wrapping_add(size.wrapping_sub(1)) >> 12;
    let mut page = addr >> 12;
    let mut va = addr;
    let mut reads: u32 = 0;
    loop {
        let here = check_page(vm, mem, base, va, access);
        reads += here.reads;
        let frame = here.frame;
        if let Err(e) = frame {
            break Pages {
                frame: Err(e),
                reads,
            };
        }
        if page == last {
            break Pages { frame, reads };
        }
        page += 1;
        va = page << 12;
    }
}

// Where a page that is open to an access leads, and the table words read.
#[derive(Clone, Copy)]
pub struct PageGrant {
    pub ppn: u32,
    pub reads: u32,
}

// A page that is not resident. A leaf that does not grant the access is left to the check, which fills and says why.
fn grant_walk(
    vm: &mut [u32; VM_WORDS],
    mem: &[u8],
    base: u32,
    va: u32,
    access: Access,
) -> Option<PageGrant>
    ensures { GrantsWalk (lent base mem.now) access va (vm_at vm.old) result (vm_at vm.new) }
{
    let answer = walk(mem, base, vm[PTBR], va);
    let walked = answer.walked;
    match walked {
        Ok(leaf) => {
            if grants(leaf, access) {
                fill(vm, leaf);
                return Some(PageGrant {
                    ppn: leaf.ppn,
                    reads: answer.reads,
                });
            }
            None
        }
        Err(_) => None,
    }
}

// The check of one page for an access that it allows. Where it would deny nothing is done: the check is then to be asked. Its answer has no
// exception in it, so that the compiler keeps it in registers.
pub fn grant_page(
    vm: &mut [u32],
    mem: &[u8],
    base: u32,
    va: u32,
    access: Access,
) -> Option<PageGrant>
    ensures { Over vm_words vm.old vm.new result None (GrantsPage (lent base mem.now) access va (vm_at vm.old) result (vm_at vm.new)) }
{
    let Some(vm) = vm.as_mut_array::<VM_WORDS>() else {
        return None;
    };
    let page = va >> 12;
    if page << 12 >= CPU_RESERVED_BASE {
        return None;
    }
    let Some(slot) = slot_of(vm, page) else {
        return grant_walk(vm, mem, base, va, access);
    };
    let entry = entry_at(vm, slot);
    if grants(entry, access) {
        return Some(PageGrant {
            ppn: entry.ppn,
            reads: 0,
        });
    }
    None
}
