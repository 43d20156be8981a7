// The L1 tag cache, under C names.
ghost use Rattle.std.specs.Prelude.{◌≡◌};
ghost use Rattle.cache.specs.Cache.{new_cache, reset_of, fetched, loaded, stored, external_written, lines_visited, reg_read, reg_written, byte_read, byte_written};
ghost use Rattle.bridge.specs.Cache.{with_penalty};

use cache::{CacheAccess, L1Cache};

#[unsafe(no_mangle)]
pub extern "C" fn cache_new(ram_start: u32, ram_size: u32) -> L1Cache
    ensures { result ≡ new_cache ram_start ram_size }
{
    bridge::cache_calls::cache_new(ram_start, ram_size)
}

#[unsafe(no_mangle)]
pub extern "C" fn cache_set_penalty(c: L1Cache, penalty: u32) -> L1Cache
    ensures { result ≡ with_penalty c penalty }
{
    bridge::cache_calls::cache_set_penalty(c, penalty)
}

#[unsafe(no_mangle)]
pub extern "C" fn cache_reset(c: L1Cache) -> L1Cache
    ensures { result ≡ reset_of c }
{
    bridge::cache_calls::cache_reset(c)
}

#[unsafe(no_mangle)]
pub extern "C" fn cache_fetch(c: L1Cache, pa: u32) -> CacheAccess
    ensures { result ≡ fetched c pa }
{
    bridge::cache_calls::cache_fetch(c, pa)
}

#[unsafe(no_mangle)]
pub extern "C" fn cache_load(c: L1Cache, pa: u32) -> CacheAccess
    ensures { result ≡ loaded c pa }
{
    bridge::cache_calls::cache_load(c, pa)
}

#[unsafe(no_mangle)]
pub extern "C" fn cache_store(c: L1Cache, pa: u32) -> L1Cache
    ensures { result ≡ stored c pa }
{
    bridge::cache_calls::cache_store(c, pa)
}

#[unsafe(no_mangle)]
pub extern "C" fn cache_external_write(c: L1Cache, pa: u32, len: u32) -> L1Cache
    ensures { result ≡ external_written c pa len }
{
    bridge::cache_calls::cache_external_write(c, pa, len)
}

#[unsafe(no_mangle)]
pub extern "C" fn cache_lines_visited(pa: u32, len: u32) -> u32
    ensures { result ≡ lines_visited pa len }
{
    bridge::cache_calls::cache_lines_visited(pa, len)
}

#[unsafe(no_mangle)]
pub extern "C" fn cache_read_reg(c: L1Cache, offset: u32) -> u32
    ensures { result ≡ reg_read c offset }
{
    bridge::cache_calls::cache_read_reg(c, offset)
}

#[unsafe(no_mangle)]
pub extern "C" fn cache_write_reg(c: L1Cache, offset: u32, value: u32) -> L1Cache
    ensures { result ≡ reg_written c offset value }
{
    bridge::cache_calls::cache_write_reg(c, offset, value)
}

#[unsafe(no_mangle)]
pub extern "C" fn cache_read_byte(c: L1Cache, addr: u32) -> u8
    ensures { result ≡ byte_read c addr }
{
    bridge::cache_calls::cache_read_byte(c, addr)
}

#[unsafe(no_mangle)]
pub extern "C" fn cache_write_byte(c: L1Cache, addr: u32, value: u8) -> L1Cache
    ensures { result ≡ byte_written c addr value }
{
    bridge::cache_calls::cache_write_byte(c, addr, value)
}
