// The text of a run: a line for each event, the last line, and the line of a refused script. Document 01, 'Event script and
// its listing'.
//
// Each function writes into a lent buffer at a place and answers the next place, as those of `text` do: the theorems of `contracts` name them so.
#![tactic(auto)]

ghost use Rattle.std.specs.Prelude.{◌≡◌, [], ◌∷◌, ◌++◌};
ghost use Rattle.text.specs.Text.{written, hex_of, decimal_of};
ghost use Rattle.listing.specs.Listing.{line, newline, spaced, line_text, numbered, end_text, refused_text};
ghost use Rattle.listing.specs.Corners.{Corners};

use text::{put_byte, put_bytes, put_decimal, put_hex};

// A buffer of this size holds any listing.
pub const LISTING_MAX: usize = 131_072;

// What one event shows.
#[derive(Clone, Copy)]
pub struct Line {
    // V for a value, X for an exception, B for a bus error on data, N for a refusal. `new` takes any byte, so no enum stands here.
    pub letter: u8,
    // The value, the CAUSE, 0, or the refusal's number.
    pub digits: u32,
    pub stall: u64,
    // Walk reads.
    pub reads: u32,
}

impl Line {
    pub fn new(letter: u8, digits: u32, stall: u64, reads: u32) -> Self
        ensures { result ≡ line letter digits stall reads }
    {
        Self {
            letter,
            digits,
            stall,
            reads,
        }
    }
}

// The index and the letter.
fn put_mark(out: &mut [u8], at: usize, index: u32, letter: u8) -> usize
    ensures { (out.new, result) ≡ written (out.old, at) (decimal_of index ++ spaced (letter ∷ [])) }
{
    let blank = put_decimal(out, at, index as u64);
    let next = put_byte(out, blank, b' ');
    put_byte(out, next, letter)
}

fn put_spaced_hex(out: &mut [u8], at: usize, v: u32) -> usize
    ensures { (out.new, result) ≡ written (out.old, at) (spaced (hex_of 8 v)) }
{
    let next = put_byte(out, at, b' ');
    put_hex(out, next, v, 8)
}

// It differs from `put_spaced_hex` in one call: a closure for that would be longer than the function.
fn put_spaced_decimal(out: &mut [u8], at: usize, v: u64) -> usize
    ensures { (out.new, result) ≡ written (out.old, at) (spaced (decimal_of v)) }
{
    let next = put_byte(out, at, b' ');
    put_decimal(out, next, v)
}

// Stall and walk reads, which end the line.
fn put_costs(out: &mut [u8], at: usize, stall: u64, reads: u32) -> usize
    ensures { (out.new, result) ≡ written (out.old, at) (spaced (decimal_of stall) ++ spaced (decimal_of reads) ++ newline) }
{
    let next = put_spaced_decimal(out, at, stall);
    let last = put_spaced_decimal(out, next, reads as u64);
    put_byte(out, last, b'\n')
}

// The line of one event. A line that has no room at all is not made.
pub fn put_line(out: &mut [u8], at: usize, index: u32, line: Line) -> usize
    ensures { (out.new, result) ≡ written (out.old, at) (line_text index line) }
{
    if at >= out.len() {
        return at;
    }
    let digits = put_mark(out, at, index, line.letter);
    let costs = put_spaced_hex(out, digits, line.digits);
    put_costs(out, costs, line.stall, line.reads)
}

// A line of a word and a number.
fn put_numbered(out: &mut [u8], at: usize, word: &[u8], n: u32) -> usize
    ensures { (out.new, result) ≡ written (out.old, at) (numbered word.now n) }
{
    let next = put_bytes(out, at, word);
    let last = put_decimal(out, next, n as u64);
    put_byte(out, last, b'\n')
}

// The last line of a run of n events.
#[tactic(auto, unfolding(crate::specs::Listing::end_text))]
pub fn put_end(out: &mut [u8], at: usize, n: u32) -> usize
    ensures { (out.new, result) ≡ written (out.old, at) (end_text n) }
{
    put_numbered(out, at, b"end ", n)
}

// The only line of a script that is refused.
#[tactic(auto, unfolding(crate::specs::Listing::refused_text))]
pub fn put_refused(out: &mut [u8], at: usize, n: u32) -> usize
    ensures { (out.new, result) ≡ written (out.old, at) (refused_text n) }
{
    put_numbered(out, at, b"refused ", n)
}

// The document's whole case, computed.
#[tactic(auto, using(crate::proofs::Figures::corners_hold))]
pub fn corners()
    ensures { Corners }
{}
