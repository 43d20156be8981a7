// The TLB: sixteen entries, copied with the state.
ghost use Rattle.std.specs.Prelude.{◌≡◌, ◌%◌, slice_set};
ghost use Rattle.mmu.specs.Tlb.{first_match, no_entry, no_entries, dropped, dropped_page};

pub const TLB_ENTRIES: usize = 16;

// One translation. The flags are the R, W, X and U bits of the leaf. An entry that lost its valid mark keeps its numbers.
#[repr(C)]
#[derive(Clone, Copy)]
pub struct TlbEntry {
    pub valid: bool,
    pub vpn: u32,
    pub ppn: u32,
    pub flags: u32,
}

// The first valid entry of the page.
pub fn lookup(tlb: [TlbEntry; 16], vpn: u32) -> Option<usize>
    ensures { result ≡ first_match vpn 0 tlb }
{
    for (i, entry) in tlb.iter().enumerate() {
        if entry.valid && entry.vpn == vpn {
            return Some(i);
        }
    }
    None
}

// The entry takes the slot, whatever stood there; a slot number is read modulo 16.
pub fn fill(mut tlb: [TlbEntry; 16], slot: usize, entry: TlbEntry) -> [TlbEntry; 16]
    ensures { result ≡ slice_set tlb (slot % 16) entry }
{
    tlb[slot % TLB_ENTRIES] = entry;
    tlb
}

#[tactic(auto, unfolding(crate::specs::Tlb::dropped))]
fn drop_mark(mut entry: TlbEntry, vpn: u32) -> TlbEntry
    ensures { result ≡ dropped vpn entry }
{
    if entry.vpn == vpn {
        entry.valid = false;
    }
    entry
}

// Every entry of the page loses its valid mark and nothing else.
pub fn invalidate(mut tlb: [TlbEntry; 16], vpn: u32) -> [TlbEntry; 16]
    ensures { result ≡ dropped_page vpn tlb }
{
    for entry in tlb.iter_mut() {
        *entry = drop_mark(*entry, vpn);
    }
    tlb
}

fn no_entry() -> TlbEntry
    ensures { result ≡ no_entry }
{
    TlbEntry {
        valid: false,
        vpn: 0,
        ppn: 0,
        flags: 0,
    }
}

// Sixteen entries of zeros.
#[tactic(auto, unfolding(crate::specs::Tlb::no_entries))]
pub fn empty() -> [TlbEntry; 16]
    ensures { result ≡ no_entries }
{
    [no_entry(); 16]
}

// Every entry becomes one of zeros.
pub fn flush(_tlb: [TlbEntry; 16]) -> [TlbEntry; 16]
    ensures { result ≡ no_entries }
{
    empty()
}
