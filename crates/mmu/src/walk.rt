// The hardware's table walk: two levels of big-endian words in lent memory.
ghost use Rattle.std.specs.Prelude.{◌≡◌};
ghost use Rattle.memory.specs.Memory.{lent, read_at, word_spots};
ghost use Rattle.mmu.specs.Walk.{table_ok, leaf_ok, leaf_entry, spot2, answered, walk_leaf, walk_of};

use crate::tlb::TlbEntry;
use memory::read_word;

// The bits of a table word. An entry's flags are the leaf's R, W, X and U.
pub const PTE_V: u32 = 1;

pub const PTE_R: u32 = 2;

pub const PTE_W: u32 = 4;

pub const PTE_X: u32 = 8;

pub const PTE_U: u32 = 16;

const PTE_RESERVED: u32 = 0xC0;

const PTE_RWX: u32 = 0x0E;

const PAGE_SIZE: u32 = 4096;

// Why a walk led to no leaf.
#[derive(Clone, Copy)]
pub enum WalkFault {
    // No valid leaf: not valid, malformed, or a huge page.
    Missing,
    // A word that could not be read.
    BusError,
}

#[derive(Drop)]
pub struct WalkAnswer {
    pub walked: Result<TlbEntry, WalkFault>,
    // Words read, one that could not be read included.
    pub reads: u32,
}

fn answered(walked: Result<TlbEntry, WalkFault>, reads: u32) -> WalkAnswer
    ensures { result ≡ answered walked reads }
{
    WalkAnswer { walked, reads }
}

// A level-1 word that names a table.
fn table_ok(l1: u32) -> bool
    ensures { result ≡ table_ok l1 }
{
    if l1 & PTE_V == 0 {
        return false;
    }
    if l1 & PTE_RESERVED != 0 {
        return false;
    }
    l1 & PTE_RWX == 0
}

// A leaf: some of R, W and X, and R if W.
fn leaf_ok(l2: u32) -> bool
    ensures { result ≡ leaf_ok l2 }
{
    if l2 & PTE_V == 0 {
        return false;
    }
    if l2 & PTE_RESERVED != 0 {
        return false;
    }
    if l2 & PTE_RWX == 0 {
        return false;
    }
    if l2 & PTE_W == 0 {
        return true;
    }
    l2 & PTE_R != 0
}

fn leaf_entry(va: u32, l2: u32) -> TlbEntry
    ensures { result ≡ leaf_entry va l2 }
{
    TlbEntry {
        valid: true,
        vpn: va >> 12,
        ppn: l2 >> 12,
        flags: l2 & (PTE_RWX | PTE_U),
    }
}

#[tactic(auto, unfolding(crate::specs::Walk::walk_of, crate::specs::Walk::walk_table))]
pub fn walk(mem: &[u8], base: u32, ptbr: u32, va: u32) -> WalkAnswer
    ensures { result ≡ walk_of (lent base mem.now) ptbr va }
{
    let first = read_word(mem, base, ptbr / PAGE_SIZE * PAGE_SIZE + (va >> 22) * 4);
    let Some(l1) = first else {
        return answered(Err(WalkFault::BusError), 1);
    };
    if table_ok(l1) {
        walk_leaf(mem, base, l1, va)
    } else {
        answered(Err(WalkFault::Missing), 1)
    }
}

// The second word, in the table that the first one names.
#[tactic(auto, unfolding(crate::specs::Walk::walk_leaf))]
fn walk_leaf(mem: &[u8], base: u32, l1: u32, va: u32) -> WalkAnswer
    ensures { result ≡ walk_leaf va (read_at (lent base mem.now) (word_spots (spot2 l1 va))) }
{
    let second = read_word(
        mem,
        base,
        l1 / PAGE_SIZE * PAGE_SIZE + (va >> 12) % 1024 * 4,
    );
    let Some(l2) = second else {
        return answered(Err(WalkFault::BusError), 2);
    };
    if leaf_ok(l2) {
        answered(Ok(leaf_entry(va, l2)), 2)
    } else {
        answered(Err(WalkFault::Missing), 2)
    }
}
