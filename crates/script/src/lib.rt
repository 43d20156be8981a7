// An event script: document 01, 'Event script and its listing'. Here its events; `header` has its header and its image.
#![tactic(auto)]

ghost use Rattle.std.specs.Prelude.{◌≡◌, ◌+◌, ◌≤◌, length, slice_index, IfSome};
ghost use Rattle.script.specs.Event.{event_at};
ghost use Rattle.script.specs.Image.{bytes_from};
ghost use Rattle.script.specs.Meaning.{Meaning};
ghost use Rattle.script.specs.Corners.{Corners};

use common::{be_half, be_word};

pub mod header;
pub mod reader;

pub const EVENT_SIZE: usize = 12;

// Twelve bytes, big-endian. Which fields an event uses its kind says. Any byte may stand as a kind: the machine refuses those that are none.
#[derive(Clone, Copy)]
pub struct Event {
    pub kind: u8,
    pub size: u8,
    pub aux: u16,
    pub a: u32,
    pub b: u32,
}

// Byte `k` from place `at` on; 0 past the end.
fn byte_at(s: &[u8], at: usize, k: usize) -> u8
    ensures { result ≡ slice_index s.now (at + k) }
{
    if at < s.len() && k < s.len() - at {
        s[at + k]
    } else {
        0
    }
}

// `N` bytes from place `at` on; zeros past the end. They are few, and tested one by one: a copy of as many as there are would be a call of `memcpy`, which
// the library `race` has no other use for.
fn padded<const N: usize>(s: &[u8], at: usize) -> [u8; N]
    ensures { result ≡ bytes_from s.now at N }
{
    let mut bytes = [0u8; N];
    for (k, byte) in bytes.iter_mut().enumerate() {
        *byte = byte_at(s, at, k);
    }
    bytes
}

fn decode(bytes: &[u8; EVENT_SIZE]) -> Event
    ensures { result ≡ event_at bytes.now 0 }
{
    let [kind, size, aux0, aux1, a0, a1, a2, a3, b0, b1, b2, b3] = *bytes;
    Event {
        kind,
        size,
        aux: be_half(aux0, aux1),
        a: be_word(a0, a1, a2, a3),
        b: be_word(b0, b1, b2, b3),
    }
}

// The bytes of the event at a place, where all of them are there.
fn whole_event(s: &[u8], at: usize) -> Option<&[u8; EVENT_SIZE]>
    ensures { IfSome result (λ b. (at + 12 ≤ length s.now) × (b.now ≡ bytes_from s.now at 12)) }
{
    s.get(at..)?.first_chunk()
}

// The event that starts at a place of the script. That all its bytes are there is tested once.
pub fn event_at(s: &[u8], at: usize) -> Event
    ensures { result ≡ event_at s.now at }
{
    match whole_event(s, at) {
        Some(bytes) => decode(bytes),
        None => decode(&padded(s, at)),
    }
}

// When each refusal is given, in the document's words.
pub fn meaning()
    ensures { Meaning }
{}

// Scripts at the limits of the refusals, and the document's whole case, computed.
pub fn corners()
    ensures { Corners }
{}
