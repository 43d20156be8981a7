// A script's header: where the events and the image stand, when a script is refused, and the image's copy.
ghost use Rattle.std.specs.Prelude.{◌≡◌, length};
ghost use Rattle.script.specs.Header.{header_at, header_size, length_ok, counts_ok, events_section, image_section, section_ok, apart, sections_ok, script_of, event_place};
ghost use Rattle.script.specs.Event.{word_of};
ghost use Rattle.script.specs.Image.{bytes_from};

use crate::{EVENT_SIZE, padded};
use common::{Refusal, be_word};
use memory::good_range;
use std::ops::Range;

// Six words, the shortest header.
pub const HEADER_LEAST: usize = 24;

pub const SCRIPT_MAX: usize = 61_440;

pub const EVENTS_MAX: u32 = 2048;

pub const IMAGE_MAX: u32 = 32_768;

const PAGE_SIZE: u32 = 4096;

// Six words, big-endian.
#[derive(Clone, Copy)]
pub struct Header {
    // How many events there are, and where in the script they start.
    pub events: u32,
    pub events_at: u32,
    // The image's length, and where in the script it starts.
    pub image: u32,
    pub image_at: u32,
    // The physical address of the image's first byte.
    pub base: u32,
    // What a cache miss costs.
    pub penalty: u32,
}

// The big-endian word at a place.
fn word_at(s: &[u8], at: usize) -> u32
    ensures { result ≡ word_of s.now at 0 }
{
    let bytes = padded::<4>(s, at);
    let [a, b, c, d] = bytes;
    be_word(a, b, c, d)
}

#[tactic(auto, unfolding(crate::specs::Header::header_at, crate::specs::Event::word_of))]
fn read_header(s: &[u8]) -> Header
    ensures { result ≡ header_at s.now }
{
    Header {
        events: word_at(s, 0),
        events_at: word_at(s, 4),
        image: word_at(s, 8),
        image_at: word_at(s, 12),
        base: word_at(s, 16),
        penalty: word_at(s, 20),
    }
}

// How many bytes this header has.
fn header_size(h: Header) -> usize
    ensures { result ≡ header_size h }
{
    HEADER_LEAST
}

#[tactic(auto, unfolding(crate::specs::Header::length_ok))]
fn length_ok(len: usize) -> bool
    ensures { result ≡ length_ok len }
{
    HEADER_LEAST <= len && len <= SCRIPT_MAX
}

#[tactic(auto, unfolding(crate::specs::Header::counts_ok))]
fn counts_ok(h: Header) -> bool
    ensures { result ≡ counts_ok h }
{
    h.events <= EVENTS_MAX && h.image <= IMAGE_MAX && h.image % PAGE_SIZE == 0
}

fn events_section(h: Header) -> Range<usize>
    ensures { result ≡ events_section h }
{
    let start = h.events_at as usize;
    start..start + EVENT_SIZE * (h.events as usize)
}

fn image_section(h: Header) -> Range<usize>
    ensures { result ≡ image_section h }
{
    let start = h.image_at as usize;
    start..start + (h.image as usize)
}

// A section behind `first` bytes of header. An empty one is not tested.
#[tactic(auto, unfolding(crate::specs::Header::section_ok))]
fn section_ok(first: usize, len: usize, p: &Range<usize>) -> bool
    ensures { result ≡ section_ok first len p.now }
{
    p.start == p.end || (first <= p.start && p.end <= len)
}

// No byte is in both. Sections that touch are apart, and so is an empty one from any other.
#[tactic(auto, unfolding(crate::specs::Header::apart))]
fn apart(p: &Range<usize>, q: &Range<usize>) -> bool
    ensures { result ≡ apart p.now q.now }
{
    p.start == p.end || q.start == q.end || p.end <= q.start || q.end <= p.start
}

#[tactic(auto, unfolding(crate::specs::Header::sections_ok))]
fn sections_ok(len: usize, h: Header) -> bool
    ensures { result ≡ sections_ok len h }
{
    let first = header_size(h);
    let events = events_section(h);
    let image = image_section(h);
    section_ok(first, len, &events) && section_ok(first, len, &image) && apart(&events, &image)
}

// The header of a good script, or the first refusal that is due: 4, then 2, then 5.
#[tactic(auto, unfolding(crate::specs::Header::script_of, crate::specs::Header::decided))]
pub fn header_of(s: &[u8]) -> Result<Header, Refusal>
    ensures { result ≡ script_of s.now }
{
    let len = s.len();
    if !length_ok(len) {
        return Err(Refusal::Header);
    }
    let h = read_header(s);
    if !counts_ok(h) {
        return Err(Refusal::Header);
    }
    if !good_range(h.base, h.image as u64) {
        return Err(Refusal::Map);
    }
    if !sections_ok(len, h) {
        return Err(Refusal::Section);
    }
    Ok(h)
}

// Where event k starts in the script.
pub fn event_place(h: Header, k: u32) -> usize
    ensures { result ≡ event_place h k }
{
    (h.events_at as usize) + EVENT_SIZE * (k as usize)
}

// Fills the memory with the script's bytes from place `at` on; with zeros past its end.
pub fn copy_image(s: &[u8], at: usize, mem: &mut [u8])
    ensures { mem.new ≡ bytes_from s.now at (length mem.old) }
{
    let rest = &s[at.min(s.len())..];
    let n = rest.len().min(mem.len());
    let (image, zeros) = mem.split_at_mut(n);
    image.copy_from_slice(&rest[..n]);
    zeros.fill(0);
}
