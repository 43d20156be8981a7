// The data of an access, given where its bytes are: no byte is looked up again. Inside a page they stand in one row; over two
// pages an access goes byte by byte.
ghost use Rattle.std.specs.Prelude.{◌≡◌, ℕ, ◌<◌, ◌≤◌, true, Some};
ghost use Rattle.common.specs.Bytes.{bytes_of};
ghost use Rattle.memory.specs.Gate.{map_good};
ghost use Rattle.memory.specs.Memory.{lent, byte_at, read_at, writable, put_byte, put_at, all_writable};
ghost use Rattle.privilege.specs.Rows.{place_of, rows_of, places_by, Stands};
ghost use Rattle.privilege.specs.Transfer.{load_at, store_at, memory_at};

use crate::check::data_size;
use crate::state::PAGE_SIZE;
use crate::transfer::DataError;
use memory::gate::admit;
use memory::span::{put_half, put_word, read_half};
use memory::{MAP_END, put_byte, read_byte, read_word};

// Big-endian load of 1, 2 or 4 bytes: `pa` is where the first byte is, `pb` where the second page starts.
pub fn read_rows(
    mem: &[u8],
    base: u32,
    addr: u32,
    size: u32,
    pa: u32,
    pb: u32,
) -> Result<u32, DataError>
    ensures { result ≡ load_at (lent base mem.now) size (rows_of addr size pa pb) }
{
    admit(mem, base, data_size(size))?;
    read_there(mem, base, addr, size, pa, pb).ok_or(DataError::BusError)
}

// A word, a half or a byte inside its page, or any bytes one by one.
fn read_there(mem: &[u8], base: u32, addr: u32, size: u32, pa: u32, pb: u32) -> Option<u32>
    requires { (size ≤ 4) × (map_good (lent base mem.now) ≡ true) }
    ensures { result ≡ read_at (lent base mem.now) (rows_of addr size pa pb) }
{
    if size == 4 {
        if addr % PAGE_SIZE <= PAGE_SIZE - 4 {
            return read_word(mem, base, pa);
        }
    }
    if size == 1 {
        return read_byte(mem, base, pa);
    }
    if size == 2 {
        if addr % PAGE_SIZE <= PAGE_SIZE - 2 {
            return read_half(mem, base, pa);
        }
    }
    read_each(mem, base, size, |i| place(addr, pa, pb, i))
}

// Where byte `i` is. An address that passes 32 bits does not wrap.
fn place(addr: u32, pa: u32, pb: u32, i: u32) -> u64
    ensures { result ≡ place_of addr pa pb i }
{
    let room = PAGE_SIZE - addr % PAGE_SIZE;
    if i < room {
        return pa as u64 + i as u64;
    }
    pb as u64 + (i - room) as u64
}

// A good map ends before such an address.
fn read_place(mem: &[u8], base: u32, at: u64) -> Option<u32>
    requires { map_good (lent base mem.now) ≡ true }
    ensures value { result ≡ byte_at (lent base mem.now) at }
    ensures by_index { (b : ℕ) → result ≡ Some b → b < 256 }
{
    if at >= MAP_END {
        return None;
    }
    read_byte(mem, base, at as u32)
}

fn put_place(mem: &mut [u8], base: u32, at: u64, b: u8) -> bool
    requires { map_good (lent base mem.old) ≡ true }
    ensures { (result ≡ writable (lent base mem.old) at) × (mem.new ≡ (put_byte (lent base mem.old) at b).bytes) }
{
    if at >= MAP_END {
        return false;
    }
    put_byte(mem, base, at as u32, b)
}

// Big-endian load of bytes each of which may stand anywhere: byte `i` at `place(i)`.
pub(crate) fn read_each<F: Fn(u32) -> u64>(
    mem: &[u8],
    base: u32,
    size: u32,
    place: F,
) -> Option<u32>
    requires small { size ≤ 4 }
    requires good { map_good (lent base mem.now) ≡ true }
    requires answers { F.IsAlwaysCallable place }
    ensures { (at : ℕ → ℕ) → Stands (F.post place) at → result ≡ read_at (lent base mem.now) (places_by at 0 size) }
{
    let mut value = 0;
    for i in 0..size {
        value = value * 256 + read_place(mem, base, place(i))?;
    }
    Some(value)
}

// Big-endian store of 1, 2 or 4 bytes. Bytes outside are not written, the others are. Here and below a load is lent memory to read and a store to write,
// so the two are no instances of one function.
pub fn write_rows(
    mem: &mut [u8],
    base: u32,
    addr: u32,
    size: u32,
    pa: u32,
    pb: u32,
    value: u32,
) -> Result<(), DataError>
    ensures { (result ≡ store_at (lent base mem.old) size (rows_of addr size pa pb)) × (mem.new ≡ (memory_at (lent base mem.old) size (rows_of addr size pa pb) value).bytes) }
{
    admit(mem, base, data_size(size))?;
    let all = write_there(mem, base, addr, size, pa, pb, value);
    all.then_some(()).ok_or(DataError::BusError)
}

// A word, a half or a byte inside its page, or any bytes one by one: whether all were writable.
fn write_there(
    mem: &mut [u8],
    base: u32,
    addr: u32,
    size: u32,
    pa: u32,
    pb: u32,
    value: u32,
) -> bool
    requires { (size ≤ 4) × (map_good (lent base mem.old) ≡ true) }
    ensures { (result ≡ all_writable (lent base mem.old) (rows_of addr size pa pb)) × (mem.new ≡ (put_at (lent base mem.old) (rows_of addr size pa pb) (bytes_of size value)).bytes) }
{
    if size == 4 {
        if addr % PAGE_SIZE <= PAGE_SIZE - 4 {
            return put_word(mem, base, pa, value);
        }
    }
    if size == 1 {
        return put_byte(mem, base, pa, (value % 256) as u8);
    }
    if size == 2 {
        if addr % PAGE_SIZE <= PAGE_SIZE - 2 {
            return put_half(mem, base, pa, value);
        }
    }
    write_each(mem, base, size, value, |i| place(addr, pa, pb, i))
}

// Big-endian store of bytes each of which may stand anywhere: byte `i` at `place(i)`. Whether all were writable.
pub(crate) fn write_each<F: Fn(u32) -> u64>(
    mem: &mut [u8],
    base: u32,
    size: u32,
    value: u32,
    place: F,
) -> bool
    requires small { size ≤ 4 }
    requires good { map_good (lent base mem.old) ≡ true }
    requires answers { F.IsAlwaysCallable place }
    ensures { (at : ℕ → ℕ) → Stands (F.post place) at → (result ≡ all_writable (lent base mem.old) (places_by at 0 size)) × (mem.new ≡ (put_at (lent base mem.old) (places_by at 0 size) (bytes_of size value)).bytes) }
{
    let bytes = value.to_be_bytes();
    let mut all = true;
    for i in 0..size {
        all &= put_place(mem, base, place(i), bytes[(4 - size + i) as usize]);
    }
    all
}
