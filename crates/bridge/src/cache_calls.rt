// The L1 tag cache, under C names.
ghost use Rattle.std.specs.Prelude.{◌≡◌};
ghost use Rattle.cache.specs.Cache.{new_cache, reset_of, fetched, loaded, stored, external_written, lines_visited, reg_read, reg_written, byte_read, byte_written};
ghost use Rattle.bridge.specs.Cache.{with_penalty};

use cache::{CacheAccess, L1Cache, lines_visited};

#[unsafe(no_mangle)]
pub extern "C" fn cache_new(ram_start: u32, ram_size: u32) -> L1Cache
    ensures { result ≡ new_cache ram_start ram_size }
{
    L1Cache::new(ram_start, ram_size)
}

#[unsafe(no_mangle)]
pub extern "C" fn cache_set_penalty(mut c: L1Cache, penalty: u32) -> L1Cache
    ensures { result ≡ with_penalty c penalty }
{
    c.miss_penalty = penalty;
    c
}

#[unsafe(no_mangle)]
pub extern "C" fn cache_reset(c: L1Cache) -> L1Cache
    ensures { result ≡ reset_of c }
{
    c.reset()
}

#[unsafe(no_mangle)]
pub extern "C" fn cache_fetch(c: L1Cache, pa: u32) -> CacheAccess
    ensures { result ≡ fetched c pa }
{
    c.fetch(pa)
}

#[unsafe(no_mangle)]
pub extern "C" fn cache_load(c: L1Cache, pa: u32) -> CacheAccess
    ensures { result ≡ loaded c pa }
{
    c.load(pa)
}

#[unsafe(no_mangle)]
pub extern "C" fn cache_store(c: L1Cache, pa: u32) -> L1Cache
    ensures { result ≡ stored c pa }
{
    c.store(pa)
}

#[unsafe(no_mangle)]
pub extern "C" fn cache_external_write(c: L1Cache, pa: u32, len: u32) -> L1Cache
    ensures { result ≡ external_written c pa len }
{
    c.external_write(pa, len)
}

#[unsafe(no_mangle)]
pub extern "C" fn cache_lines_visited(pa: u32, len: u32) -> u32
    ensures { result ≡ lines_visited pa len }
{
    lines_visited(pa, len)
}

#[unsafe(no_mangle)]
pub extern "C" fn cache_read_reg(c: L1Cache, offset: u32) -> u32
    ensures { result ≡ reg_read c offset }
{
    c.read_reg(offset)
}

#[unsafe(no_mangle)]
pub extern "C" fn cache_write_reg(c: L1Cache, offset: u32, value: u32) -> L1Cache
    ensures { result ≡ reg_written c offset value }
{
    c.write_reg(offset, value)
}

#[unsafe(no_mangle)]
pub extern "C" fn cache_read_byte(c: L1Cache, addr: u32) -> u8
    ensures { result ≡ byte_read c addr }
{
    c.read_byte(addr)
}

#[unsafe(no_mangle)]
pub extern "C" fn cache_write_byte(c: L1Cache, addr: u32, value: u8) -> L1Cache
    ensures { result ≡ byte_written c addr value }
{
    c.write_byte(addr, value)
}
