// Lent memory: a slice and a physical base stand for the bus. Big-endian; what lies outside the map cannot be read and is
// not written.
#![tactic(auto)]

ghost use Rattle.std.specs.Prelude.{◌≡◌, ◌≤◌, length, MatchOption};
ghost use Rattle.memory.specs.Memory.{lent, good_map, byte_at, writable, put_byte, read_at, word_spots};
ghost use Rattle.memory.specs.Span.{Outside, BytesAt};

use common::be_word;

pub mod gate;
pub mod span;

// One past the last physical address that a map may have.
pub const MAP_END: u64 = 0xFFFF_0000;

pub const PAGE_SIZE: u64 = 4096;

// A map of `len` bytes from `base` on. Refusal 2 is given exactly where this is false.
pub fn good_range(base: u32, len: u64) -> bool
    ensures { result ≡ good_map base len }
{
    if base % 4096 != 0 {
        return false;
    }
    if len % PAGE_SIZE != 0 {
        return false;
    }
    if len > MAP_END {
        return false;
    }
    (base as u64) + len <= MAP_END
}

// The same of lent memory.
pub fn good_map(mem: &[u8], base: u32) -> bool
    ensures { result ≡ good_map base (length mem.now) }
{
    good_range(base, mem.len() as u64)
}

// The bytes at an address, where all of them are in the map.
pub(crate) fn bytes_at<const N: usize>(mem: &[u8], base: u32, addr: u32) -> Option<[u8; N]>
    requires { N ≤ 4 }
    ensures { MatchOption result (Outside base addr N mem.now) (λ bytes. BytesAt base addr N mem.now bytes) }
{
    let at = addr.checked_sub(base)? as usize;
    let bytes = mem.get(at..at + N)?.first_chunk::<N>()?;
    Some(*bytes)
}

pub fn read_byte(mem: &[u8], base: u32, addr: u32) -> Option<u32>
    ensures { result ≡ byte_at (lent base mem.now) addr }
{
    let [byte] = bytes_at::<1>(mem, base, addr)?;
    Some(byte as u32)
}

// The big-endian word at an address. One byte outside makes it unreadable.
pub fn read_word(mem: &[u8], base: u32, addr: u32) -> Option<u32>
    ensures { result ≡ read_at (lent base mem.now) (word_spots addr) }
{
    let bytes = bytes_at::<4>(mem, base, addr)?;
    let [a, b, c, d] = bytes;
    Some(be_word(a, b, c, d))
}

// Writes a byte where that is in the map, and says whether it is.
pub fn put_byte(mem: &mut [u8], base: u32, addr: u32, b: u8) -> bool
    ensures { (result ≡ writable (lent base mem.old) addr) × (mem.new ≡ (put_byte (lent base mem.old) addr b).bytes) }
{
    span::put_spot(mem, base, addr as u64, b)
}
