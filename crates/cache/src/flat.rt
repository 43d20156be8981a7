// The cache as words that an owner lends: a bank has 259, its enable bit, its counts of hits and misses and its tags; the cache has 521, its
// range, its penalty and the two banks. A function here has the name of the by-value one whose twin it is: that one hands the cache back, as document 01
// wants it, and this one changes the words that C lends, where they stand.
ghost use Rattle.std.specs.Prelude.{◌≡◌, ◌+◌, ◌≤◌, length};
ghost use Rattle.layout.specs.Words.{Reads};
ghost use Rattle.cache.specs.Bank.{line_of, line_stop, with_tags, line_dropped, emptied, enabled_to, stats_cleared, controlled, swept};
ghost use Rattle.cache.specs.Cache.{with_banks, new_cache, reset_of, fetched, loaded, stored, external_written, reg_read, reg_written};
ghost use Rattle.cache.specs.Flat.{bank_words, cache_words, bank_at, cache_at, Touches, Costs, Accesses, Changes};

use crate::sweep::sweep;
use crate::{
    Bank, CTRL_CLR_STATS, CTRL_D_EN, CTRL_I_EN, CTRL_INV_D, CTRL_INV_I, INVALID, L1Cache,
    ctrl_word, index_of, register, tag_of, within,
};
use layout::copy;

// A bank's words.
const ENABLED: usize = 0;

const HITS: usize = 1;

const MISSES: usize = 2;

const TAGS: usize = 3;

pub const BANK_WORDS: usize = TAGS + 256;

// The cache's words.
const RAM_START: usize = 0;

const RAM_END: usize = 1;

const MISS_PENALTY: usize = 2;

const I_BANK: usize = 3;

const D_BANK: usize = I_BANK + BANK_WORDS;

pub const CACHE_WORDS: usize = D_BANK + BANK_WORDS;

// ---- a bank
//
// Its words come as a slice: as arrays, which `first_chunk_mut` lends, the proof of what two banks write back did not end.

// A load (data bank) or fetch (instruction bank) at a cacheable address: its stall. A hit writes no tag.
fn touch(bank: &mut [u32], penalty: u32, pa: u32) -> u32
    requires { length bank.old ≡ bank_words }
    ensures { Touches (bank_at bank.old) penalty pa (bank_at bank.new) result }
{
    if bank[ENABLED] % 2 != 1 {
        return 0;
    }
    let at = TAGS + index_of(pa);
    let tag = tag_of(pa);
    if bank[at] == tag {
        bank[HITS] = bank[HITS].wrapping_add(1);
        return 0;
    }
    bank[at] = tag;
    bank[MISSES] = bank[MISSES].wrapping_add(1);
    penalty
}

fn invalidate_line(bank: &mut [u32], pa: u32)
    requires { length bank.old ≡ bank_words }
    ensures { bank_at bank.new ≡ line_dropped (bank_at bank.old) pa }
{
    let at = TAGS + index_of(pa);
    if bank[at] == tag_of(pa) {
        bank[at] = INVALID;
    }
}

fn invalidate_lines(bank: &mut [u32], pa: u32, end: u32)
    requires { length bank.old ≡ bank_words }
    ensures { bank_at bank.new ≡ swept (bank_at bank.old) (line_of pa) (line_stop end) }
{
    sweep(&mut bank[TAGS..BANK_WORDS], pa, end);
}

fn set_tags(bank: &mut [u32], tags: [u32; 256])
    requires { length bank.old ≡ bank_words }
    ensures { bank_at bank.new ≡ with_tags (bank_at bank.old) tags }
{
    copy(&mut bank[TAGS..BANK_WORDS], &tags);
}

fn invalidate_all(bank: &mut [u32])
    requires { length bank.old ≡ bank_words }
    ensures { bank_at bank.new ≡ emptied (bank_at bank.old) }
{
    set_tags(bank, [INVALID; 256]);
}

fn set_enabled(bank: &mut [u32], enabled: bool)
    requires { length bank.old ≡ bank_words }
    ensures { bank_at bank.new ≡ enabled_to (bank_at bank.old) enabled }
{
    if (bank[ENABLED] % 2 == 1) != enabled {
        invalidate_all(bank);
        bank[ENABLED] = enabled as u32;
    }
}

fn clear_stats(bank: &mut [u32])
    requires { length bank.old ≡ bank_words }
    ensures { bank_at bank.new ≡ stats_cleared (bank_at bank.old) }
{
    bank[HITS] = 0;
    bank[MISSES] = 0;
}

fn control(bank: &mut [u32], enabled: bool, invalidate: bool, clear: bool)
    requires { length bank.old ≡ bank_words }
    ensures { bank_at bank.new ≡ controlled (bank_at bank.old) enabled invalidate clear }
{
    set_enabled(bank, enabled);
    if invalidate {
        invalidate_all(bank);
    }
    if clear {
        clear_stats(bank);
    }
}

fn pack_bank(bank: &mut [u32], b: Bank)
    requires { length bank.old ≡ bank_words }
    ensures { bank_at bank.new ≡ b }
{
    let tags = b.tags;
    set_tags(bank, tags);
    bank[ENABLED] = b.enabled as u32;
    bank[HITS] = b.hits;
    bank[MISSES] = b.misses;
}

fn unpack_bank(bank: &[u32]) -> Bank
    requires { length bank.now ≡ bank_words }
    ensures { result ≡ bank_at bank.now }
{
    let mut tags = [0u32; 256];
    copy(&mut tags, &bank[TAGS..BANK_WORDS]);
    Bank {
        tags,
        enabled: bank[ENABLED] % 2 == 1,
        hits: bank[HITS],
        misses: bank[MISSES],
    }
}

// ---- the cache

// A load or fetch, in the bank that starts at the word `AT`: its stall.
fn access<const AT: usize>(cache: &mut [u32], pa: u32) -> u32
    requires { AT + bank_words ≤ cache_words }
    ensures { Accesses AT cache.old cache.new result pa }
{
    if cache.len() != CACHE_WORDS {
        return 0;
    }
    if within(cache[RAM_START], cache[RAM_END], pa) {
        let penalty = cache[MISS_PENALTY];
        return touch(&mut cache[AT..AT + BANK_WORDS], penalty, pa);
    }
    0
}

pub fn load(cache: &mut [u32], pa: u32) -> u32
    ensures { Costs cache.old cache.new result (loaded (cache_at cache.old) pa) }
{
    access::<D_BANK>(cache, pa)
}

pub fn fetch(cache: &mut [u32], pa: u32) -> u32
    ensures { Costs cache.old cache.new result (fetched (cache_at cache.old) pa) }
{
    access::<I_BANK>(cache, pa)
}

pub fn store(cache: &mut [u32], pa: u32)
    ensures { Changes cache.old cache.new (stored (cache_at cache.old) pa) }
{
    if cache.len() != CACHE_WORDS {
        return;
    }
    if within(cache[RAM_START], cache[RAM_END], pa) {
        invalidate_line(&mut cache[I_BANK..D_BANK], pa);
    }
}

pub fn external_write(cache: &mut [u32], pa: u32, len: u32)
    ensures { Changes cache.old cache.new (external_written (cache_at cache.old) pa len) }
{
    if cache.len() != CACHE_WORDS {
        return;
    }
    let end = pa.saturating_add(len);
    invalidate_lines(&mut cache[I_BANK..D_BANK], pa, end);
    invalidate_lines(&mut cache[D_BANK..CACHE_WORDS], pa, end);
}

pub fn read_reg(cache: &[u32], offset: u32) -> u32
    ensures { Reads cache_words cache.now result 0 (reg_read (cache_at cache.now) offset) }
{
    if cache.len() != CACHE_WORDS {
        return 0;
    }
    register(
        offset,
        ctrl_word(
            cache[I_BANK + ENABLED] % 2 == 1,
            cache[D_BANK + ENABLED] % 2 == 1,
        ),
        cache[I_BANK + HITS],
        cache[I_BANK + MISSES],
        cache[D_BANK + HITS],
        cache[D_BANK + MISSES],
    )
}

pub fn write_reg(cache: &mut [u32], offset: u32, value: u32)
    ensures { Changes cache.old cache.new (reg_written (cache_at cache.old) offset value) }
{
    if cache.len() != CACHE_WORDS {
        return;
    }
    if offset != 0x04 {
        return;
    }
    let clear = value & CTRL_CLR_STATS != 0;
    control(
        &mut cache[I_BANK..D_BANK],
        value & CTRL_I_EN != 0,
        value & CTRL_INV_I != 0,
        clear,
    );
    control(
        &mut cache[D_BANK..CACHE_WORDS],
        value & CTRL_D_EN != 0,
        value & CTRL_INV_D != 0,
        clear,
    );
}

// Both banks' words, of other banks.
fn pack_banks(cache: &mut [u32], i: Bank, d: Bank)
    requires { length cache.old ≡ cache_words }
    ensures { cache_at cache.new ≡ with_banks (cache_at cache.old) i d }
{
    pack_bank(&mut cache[I_BANK..D_BANK], i);
    pack_bank(&mut cache[D_BANK..CACHE_WORDS], d);
}

pub fn reset(cache: &mut [u32])
    ensures { Changes cache.old cache.new (reset_of (cache_at cache.old)) }
{
    if cache.len() != CACHE_WORDS {
        return;
    }
    pack_banks(cache, Bank::new(), Bank::new());
}

// The words of a cache.
pub fn pack(words: &mut [u32], cache: L1Cache)
    ensures { Changes words.old words.new cache }
{
    if words.len() != CACHE_WORDS {
        return;
    }
    pack_banks(words, cache.i, cache.d);
    words[RAM_START] = cache.ram_start;
    words[RAM_END] = cache.ram_end;
    words[MISS_PENALTY] = cache.miss_penalty;
}

// The cache of words, or one that holds nothing.
pub fn unpack(words: &[u32]) -> L1Cache
    ensures { Reads cache_words words.now result (new_cache 0 0) (cache_at words.now) }
{
    if words.len() != CACHE_WORDS {
        return L1Cache::new(0, 0);
    }
    L1Cache {
        i: unpack_bank(&words[I_BANK..D_BANK]),
        d: unpack_bank(&words[D_BANK..CACHE_WORDS]),
        ram_start: words[RAM_START],
        ram_end: words[RAM_END],
        miss_penalty: words[MISS_PENALTY],
    }
}
