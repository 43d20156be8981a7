// Halves and words of lent memory, high byte first.
//
// An address goes on past 2^32 without wrapping, so the bytes of a word at the very end are counted in 64 bits.
ghost use Rattle.std.specs.Prelude.{◌≡◌, ◌+◌, ◌-◌, ◌^◌, ◌≤◌, ◌<◌, length};
ghost use Rattle.common.specs.Bytes.{bytes_of};
ghost use Rattle.memory.specs.Memory.{lent, read_at, word_spots, writable, put_byte, put_at, all_writable};
ghost use Rattle.memory.specs.Span.{spots, half_spots};

use crate::bytes_at;
use common::be_half;

// The big-endian half at an address. One byte outside makes it unreadable.
pub fn read_half(mem: &[u8], base: u32, addr: u32) -> Option<u32>
    ensures { result ≡ read_at (lent base mem.now) (half_spots addr) }
{
    let bytes = bytes_at::<2>(mem, base, addr)?;
    let [a, b] = bytes;
    Some(be_half(a, b) as u32)
}

// Writes a byte where that is in the map, and says whether it is.
pub(crate) fn put_spot(mem: &mut [u8], base: u32, addr: u64, b: u8) -> bool
    ensures { (result ≡ writable (lent base mem.old) addr) × (mem.new ≡ (put_byte (lent base mem.old) addr b).bytes) }
{
    let first = base as u64;
    if addr < first {
        return false;
    }
    let at = (addr - first) as usize;
    if at < mem.len() {
        mem[at] = b;
        return true;
    }
    false
}

// Writes bytes one by one, each where it is in the map.
fn put_apart<const N: usize>(mem: &mut [u8], base: u32, addr: u64, bytes: [u8; N])
    requires { (addr < 2 ^ 32) × (N ≤ 4) }
    ensures { mem.new ≡ (put_at (lent base mem.old) (spots N addr) bytes.entry).bytes }
{
    for (i, byte) in bytes.iter().enumerate() {
        put_spot(mem, base, addr + i as u64, *byte);
    }
}

// Writes bytes where they are in the map, and says whether all are. Those of a span inside the map are one store.
fn put_bytes<const N: usize>(mem: &mut [u8], base: u32, addr: u32, bytes: [u8; N]) -> bool
    requires { (0 < N) × (N ≤ 4) }
    ensures written { mem.new ≡ (put_at (lent base mem.old) (spots N addr) bytes.entry).bytes }
    ensures all { result ≡ all_writable (lent base mem.old) (spots N addr) }
{
    if addr >= base {
        let at = (addr - base) as usize;
        if at + N <= mem.len() {
            mem[at..at + N].copy_from_slice(&bytes);
            return true;
        }
    }
    put_apart(mem, base, addr as u64, bytes);
    false
}

// Writes a half's bytes where they are in the map, and says whether both are.
pub fn put_half(mem: &mut [u8], base: u32, addr: u32, value: u32) -> bool
    ensures { (result ≡ all_writable (lent base mem.old) (half_spots addr)) × (mem.new ≡ (put_at (lent base mem.old) (half_spots addr) (bytes_of 2 value)).bytes) }
{
    put_bytes(mem, base, addr, ((value % 65536) as u16).to_be_bytes())
}

// Writes a word's bytes where they are in the map, and says whether all are.
pub fn put_word(mem: &mut [u8], base: u32, addr: u32, value: u32) -> bool
    ensures { (result ≡ all_writable (lent base mem.old) (word_spots addr)) × (mem.new ≡ (put_at (lent base mem.old) (word_spots addr) (bytes_of 4 value)).bytes) }
{
    put_bytes(mem, base, addr, value.to_be_bytes())
}
