// The check of a user's access, page by page.
ghost use Rattle.std.specs.Prelude.{◌≡◌};
ghost use Rattle.memory.specs.Memory.{lent};
ghost use Rattle.mmu.specs.Check.{permits, checked, faulted, judged, by_slot, check_page, check_each, pages_of};
ghost use Rattle.mmu.specs.Walk.{walk_of};

use crate::exception::{Access, Exception, pte_bit};
use crate::tlb::TlbEntry;
use crate::vm::Vm;
use crate::walk::{PTE_U, WalkFault, walk};

// User code can never touch vectors, IRQC or CPU state at or above this.
pub const CPU_RESERVED_BASE: u32 = 0xFFFF_0000;

#[derive(Drop)]
pub struct Checked {
    pub vm: Vm,
    pub verdict: Result<(), Exception>,
    pub reads: u32,
}

fn found(vm: Vm, verdict: Result<(), Exception>, reads: u32) -> Checked
    ensures { result ≡ checked vm verdict reads }
{
    Checked { vm, verdict, reads }
}

pub(crate) fn grants(entry: TlbEntry, access: Access) -> bool
    ensures { result ≡ permits entry access }
{
    if entry.flags & PTE_U == 0 {
        return false;
    }
    if entry.flags & pte_bit(access) == 0 {
        return false;
    }
    entry.ppn << 12 < CPU_RESERVED_BASE
}

pub(crate) fn fault(access: Access, protection: bool, addr: u32) -> Result<(), Exception>
    ensures { result ≡ faulted access protection addr }
{
    Err(Exception::PageFault {
        access,
        protection,
        addr,
    })
}

#[tactic(auto, unfolding(crate::specs::Check::judged))]
pub(crate) fn judge(entry: TlbEntry, access: Access, va: u32) -> Result<(), Exception>
    ensures { result ≡ judged entry access va }
{
    if grants(entry, access) {
        Ok(())
    } else {
        fault(access, true, va)
    }
}

impl Vm {
    // One page of an access, of which `va` is the first address that is wanted. A good leaf fills the TLB even if the
    // access is then denied.
    pub fn check_page(self, mem: &[u8], base: u32, va: u32, access: Access) -> Checked
        ensures { result ≡ check_page (lent base mem.now) self access va }
    {
        let page = va >> 12;
        if page << 12 >= CPU_RESERVED_BASE {
            return found(self, fault(access, true, va), 0);
        }
        let slot = self.lookup(page);
        match slot {
            Some(i) => {
                let entry = self.tlb[i];
                found(self, judge(entry, access, va), 0)
            }
            None => self.check_walk(mem, base, va, access),
        }
    }

    // A page that is not resident.
    fn check_walk(self, mem: &[u8], base: u32, va: u32, access: Access) -> Checked
        ensures { result ≡ by_slot self access va (walk_of (lent base mem.now) self.ptbr va) None }
    {
        let answer = walk(mem, base, self.ptbr, va);
        let walked = answer.walked;
        match walked {
            Ok(entry) => {
                let filled = self.fill(entry);
                found(filled, judge(entry, access, va), answer.reads)
            }
            Err(WalkFault::Missing) => found(self, fault(access, false, va), answer.reads),
            Err(WalkFault::BusError) => found(self, Err(Exception::BusError), answer.reads),
        }
    }

    // Each page that the access touches, in order; the first that denies it decides. The loop leaves with the verdict and
    // counts the pages itself: addresses wrap, so the last page can have a lower number than the first.
    pub fn check_pages(self, mem: &[u8], base: u32, addr: u32, size: u32, access: Access) -> Checked
        ensures { result ≡ check_each (lent base mem.now) access self (pages_of addr size) }
    {
        let last = addr.wrapping_add(size.wrapping_sub(1)) >> 12;
        let mut page = addr >> 12;
        let mut va = addr;
        let mut vm = self;
        let mut reads: u32 = 0;
        loop {
            let checked = vm.check_page(mem, base, va, access);
            let after = checked.vm;
            vm = after;
            reads += checked.reads;
            let here = checked.verdict;
            if let Err(e) = here {
                break found(vm, Err(e), reads);
            }
            if page == last {
                break found(vm, Ok(()), reads);
            }
            page += 1;
            va = page << 12;
        }
    }
}
