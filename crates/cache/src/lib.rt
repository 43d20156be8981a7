// L1 tag cache: the split instruction and data cache of SRC32 (Extension C), from src/cpu_cache.rs.
//
// The model holds tags only: data always comes from memory, so it can not go stale. It tracks which lines the hardware's
// caches would hold, counts hits and misses, and charges `miss_penalty` for a miss. The state goes in by value and comes
// back by value. The bus window (`connect_cache`, its base and size) is left out; its byte lanes are `read_byte` and
// `write_byte`. Both banks have the same size, so a bank's `size_shift` is the constant `SIZE_SHIFT`.
#![tactic(auto)]

ghost use Rattle.std.specs.Prelude.{◌≡◌};
ghost use Rattle.cache.specs.Bank.{line_of, line_stop, index_of, tag_of, new_bank, accessed, line_dropped, emptied, enabled_to, stats_cleared, controlled, swept};
ghost use Rattle.cache.specs.Cache.{new_cache, range_has, cacheable_at, reset_of, both_cleared, bank_after, stall_after, fetched, loaded, stored, external_written, lines_visited, enable_bits, ctrl_word, register_at, reg_read, reg_written, lane_shift, merged, byte_read, byte_written};
ghost use Rattle.cache.specs.Meaning.{Meaning};
ghost use Rattle.cache.specs.History.{History};
ghost use Rattle.cache.specs.Corners.{Corners};

use crate::sweep::{sweep, visits};

pub mod flat;
mod sweep;

pub const LINE_SHIFT: u32 = 5;

const SIZE_SHIFT: u32 = 13;

pub const I_SIZE_SHIFT: u32 = SIZE_SHIFT;

pub const D_SIZE_SHIFT: u32 = SIZE_SHIFT;

// CACHE_CTRL bits.
pub const CTRL_I_EN: u32 = 1 << 0;

pub const CTRL_D_EN: u32 = 1 << 1;

pub const CTRL_INV_I: u32 = 1 << 8;

pub const CTRL_INV_D: u32 = 1 << 9;

pub const CTRL_CLR_STATS: u32 = 1 << 10;

// CACHE_INFO: [3:0] log2 line bytes, [7:4] log2 ways, [15:8] log2 I bytes, [23:16] log2 D bytes.
pub const CACHE_INFO: u32 = LINE_SHIFT | (0 << 4) | (I_SIZE_SHIFT << 8) | (D_SIZE_SHIFT << 16);

const LINES: u32 = 1 << (SIZE_SHIFT - LINE_SHIFT);

// The mark of an empty line, which no tag equals. C has the tags, so it is a number and no `Option`.
const INVALID: u32 = 0xFFFF_FFFF;

#[repr(C)]
#[derive(Clone, Copy)]
pub struct Bank {
    pub tags: [u32; 256],
    pub enabled: bool,
    pub hits: u32,
    pub misses: u32,
}

// What an access leaves and whether it hit: a method takes the bank by value and hands it back.
#[repr(C)]
#[derive(Clone, Copy)]
pub struct BankAccess {
    pub bank: Bank,
    pub hit: bool,
}

// The line of an address within a bank.
fn index_of(pa: u32) -> usize
    ensures { result ≡ index_of pa }
{
    ((pa >> LINE_SHIFT) % LINES) as usize
}

// The tag of an address.
fn tag_of(pa: u32) -> u32
    ensures { result ≡ tag_of pa }
{
    pa >> SIZE_SHIFT
}

// An address in [start, end).
fn within(start: u32, end: u32, pa: u32) -> bool
    ensures { result ≡ range_has start end pa }
{
    pa >= start && pa < end
}

impl Bank {
    #[tactic(auto, unfolding(crate::specs::Bank::no_tags))]
    pub fn new() -> Self
        ensures { result ≡ new_bank }
    {
        Self {
            tags: [INVALID; 256],
            enabled: true,
            hits: 0,
            misses: 0,
        }
    }

    #[tactic(auto, unfolding(crate::specs::Bank::no_tags))]
    pub fn invalidate_all(mut self) -> Self
        ensures { result ≡ emptied self }
    {
        self.tags = [INVALID; 256];
        self
    }

    // Looks up and, on a miss, allocates the line.
    #[tactic(auto, unfolding(crate::specs::Bank::accessed))]
    pub fn access(mut self, pa: u32) -> BankAccess
        ensures { result ≡ accessed self pa }
    {
        let index = index_of(pa);
        let tag = tag_of(pa);
        let hit = self.tags[index] == tag;
        if hit {
            self.hits = self.hits.wrapping_add(1);
        } else {
            self.tags[index] = tag;
            self.misses = self.misses.wrapping_add(1);
        }
        BankAccess { bank: self, hit }
    }

    #[tactic(auto, unfolding(crate::specs::Bank::line_dropped))]
    pub fn invalidate_line(mut self, pa: u32) -> Self
        ensures { result ≡ line_dropped self pa }
    {
        let index = index_of(pa);
        if self.tags[index] == tag_of(pa) {
            self.tags[index] = INVALID;
        }
        self
    }

    #[tactic(auto, using(crate::proofs::Banks::enables))]
    pub fn set_enabled(mut self, enabled: bool) -> Self
        ensures { result ≡ enabled_to self enabled }
    {
        if self.enabled != enabled {
            self = self.invalidate_all();
            self.enabled = enabled;
        }
        self
    }

    pub fn clear_stats(mut self) -> Self
        ensures { result ≡ stats_cleared self }
    {
        self.hits = 0;
        self.misses = 0;
        self
    }

    // One bank's part of a write to CACHE_CTRL: its enable bit, then its two strobes.
    fn control(self, enabled: bool, invalidate: bool, clear: bool) -> Self
        ensures { result ≡ controlled self enabled invalidate clear }
    {
        let mut bank = self.set_enabled(enabled);
        if invalidate {
            bank = bank.invalidate_all();
        }
        if clear {
            bank = bank.clear_stats();
        }
        bank
    }

    // Drops the index of each line from the one that holds `pa` while the line starts below `end`.
    #[tactic(auto, using(crate::proofs::Sweeps::bank_swept))]
    fn invalidate_lines(mut self, pa: u32, end: u32) -> Self
        ensures { result ≡ swept self (line_of pa) (line_stop end) }
    {
        sweep(&mut self.tags, pa, end);
        self
    }
}

#[repr(C)]
#[derive(Clone, Copy)]
pub struct L1Cache {
    pub i: Bank,
    pub d: Bank,
    // Cacheable physical range [start, end).
    pub ram_start: u32,
    pub ram_end: u32,
    // Stall cycles charged for a miss.
    pub miss_penalty: u32,
}

// What a load or fetch leaves and its stall cycles: a method takes the cache by value and hands it back.
#[repr(C)]
#[derive(Clone, Copy)]
pub struct CacheAccess {
    pub cache: L1Cache,
    pub stall: u32,
}

// The two enable bits.
#[tactic(auto, using(crate::proofs::Caches::flag_fits, crate::proofs::Caches::flags))]
fn ctrl_word(i: bool, d: bool) -> u32
    ensures { result ≡ enable_bits i d }
{
    (i as u32) * CTRL_I_EN | (d as u32) * CTRL_D_EN
}

// The register at an offset, given what the registers have: six numbers, of which a struct would be made for this call alone.
fn register(offset: u32, ctrl: u32, i_hits: u32, i_misses: u32, d_hits: u32, d_misses: u32) -> u32
    ensures { result ≡ register_at offset ctrl i_hits i_misses d_hits d_misses }
{
    match offset {
        0x00 => CACHE_INFO,
        0x04 => ctrl,
        0x10 => i_hits,
        0x14 => i_misses,
        0x18 => d_hits,
        0x1C => d_misses,
        _ => 0,
    }
}

impl L1Cache {
    pub fn new(ram_start: u32, ram_size: u32) -> Self
        ensures { result ≡ new_cache ram_start ram_size }
    {
        Self {
            i: Bank::new(),
            d: Bank::new(),
            ram_start,
            ram_end: ram_start.saturating_add(ram_size),
            miss_penalty: 0,
        }
    }

    #[tactic(auto, unfolding(crate::specs::Cache::cacheable_at))]
    pub fn cacheable(self, pa: u32) -> bool
        ensures { result ≡ cacheable_at self pa }
    {
        within(self.ram_start, self.ram_end, pa)
    }

    // Both banks empty and enabled, no counts; the range and the penalty stay.
    pub fn reset(mut self) -> Self
        ensures { result ≡ reset_of self }
    {
        self.i = Bank::new();
        self.d = Bank::new();
        self
    }

    pub fn clear_stats(mut self) -> Self
        ensures { result ≡ both_cleared self }
    {
        self.i = self.i.clear_stats();
        self.d = self.d.clear_stats();
        self
    }

    // What a load or fetch leaves of its bank, and its stall cycles. A hit costs nothing.
    fn access(self, bank: Bank, pa: u32) -> (Bank, u32)
        ensures { result ≡ (bank_after self bank pa, stall_after self bank pa) }
    {
        if !bank.enabled || !self.cacheable(pa) {
            return (bank, 0);
        }
        let BankAccess { bank, hit } = bank.access(pa);
        (bank, if hit { 0 } else { self.miss_penalty })
    }

    // Instruction fetch of the word or halfword at `pa`.
    #[tactic(auto, unfolding(crate::specs::Cache::fetched))]
    pub fn fetch(mut self, pa: u32) -> CacheAccess
        ensures { result ≡ fetched self pa }
    {
        let (i, stall) = self.access(self.i, pa);
        self.i = i;
        CacheAccess { cache: self, stall }
    }

    // Data load.
    #[tactic(auto, unfolding(crate::specs::Cache::loaded))]
    pub fn load(mut self, pa: u32) -> CacheAccess
        ensures { result ≡ loaded self pa }
    {
        let (d, stall) = self.access(self.d, pa);
        self.d = d;
        CacheAccess { cache: self, stall }
    }

    // Write-through store: no allocation, snoops the instruction bank.
    #[tactic(auto, unfolding(crate::specs::Cache::stored))]
    pub fn store(mut self, pa: u32) -> Self
        ensures { result ≡ stored self pa }
    {
        if self.cacheable(pa) {
            self.i = self.i.invalidate_line(pa);
        }
        self
    }

    // Another bus master wrote [pa, pa + len).
    #[tactic(auto, unfolding(crate::specs::Cache::external_written))]
    pub fn external_write(mut self, pa: u32, len: u32) -> Self
        ensures { result ≡ external_written self pa len }
    {
        let end = pa.saturating_add(len);
        self.i = self.i.invalidate_lines(pa, end);
        self.d = self.d.invalidate_lines(pa, end);
        self
    }

    #[tactic(auto, unfolding(crate::specs::Cache::ctrl_word))]
    pub fn ctrl(self) -> u32
        ensures { result ≡ ctrl_word self }
    {
        ctrl_word(self.i.enabled, self.d.enabled)
    }

    #[tactic(auto, unfolding(crate::specs::Cache::reg_read))]
    pub fn read_reg(self, offset: u32) -> u32
        ensures { result ≡ reg_read self offset }
    {
        register(
            offset,
            self.ctrl(),
            self.i.hits,
            self.i.misses,
            self.d.hits,
            self.d.misses,
        )
    }

    // Only CACHE_CTRL is writable.
    #[tactic(auto, using(crate::proofs::Caches::writes))]
    pub fn write_reg(mut self, offset: u32, value: u32) -> Self
        ensures { result ≡ reg_written self offset value }
    {
        if offset != 0x04 {
            return self;
        }
        let clear = value & CTRL_CLR_STATS != 0;
        self.i = self
            .i
            .control(value & CTRL_I_EN != 0, value & CTRL_INV_I != 0, clear);
        self.d = self
            .d
            .control(value & CTRL_D_EN != 0, value & CTRL_INV_D != 0, clear);
        self
    }

    // One byte of a register, big-endian.
    #[tactic(auto, using(crate::proofs::Lanes::byte_read_lem))]
    pub fn read_byte(self, addr: u32) -> u8
        ensures { result ≡ byte_read self addr }
    {
        ((self.read_reg(addr & !3) >> lane_shift(addr)) % 256) as u8
    }

    // Writes one byte of a register: it is merged into the register as read, whose strobe bits are zero.
    #[tactic(auto, using(crate::proofs::Lanes::byte_written_lem))]
    pub fn write_byte(self, addr: u32, value: u8) -> Self
        ensures { result ≡ byte_written self addr value }
    {
        let word = addr & !3;
        let old = self.read_reg(word);
        self.write_reg(word, merge(old, addr, value))
    }
}

// How many lines of each bank an external write of `len` bytes at `pa` visits, at most 256: the turns of its loop.
pub fn lines_visited(pa: u32, len: u32) -> u32
    ensures { result ≡ lines_visited pa len }
{
    visits(pa, pa.saturating_add(len))
}

// How far up its word the byte at `addr` stands.
#[tactic(auto, using(crate::proofs::Lanes::lane_fits, crate::proofs::Lanes::lane_is))]
fn lane_shift(addr: u32) -> u32
    ensures { result ≡ lane_shift addr }
{
    8 * (3 - (addr & 3))
}

// The word with the byte at `addr` replaced.
#[tactic(auto, using(crate::proofs::Lanes::merge_is))]
fn merge(old: u32, addr: u32, value: u8) -> u32
    ensures { result ≡ merged old addr value }
{
    let shift = lane_shift(addr);
    (old & !(0xFF << shift)) | ((value as u32) << shift)
}

// What the contracts above mean, line by line.
#[tactic(auto, using(crate::proofs::Sentences::meaning_holds))]
pub fn meaning()
    ensures { Meaning }
{}

// Each bank's hits plus misses tell how many loads or fetches there were since the last clear or reset.
#[tactic(auto, using(crate::proofs::Histories::history_holds))]
pub fn history()
    ensures { History }
{}

// The figures of the cache's description, computed.
#[tactic(auto, using(crate::proofs::Figures::corners_hold))]
pub fn corners()
    ensures { Corners }
{}
