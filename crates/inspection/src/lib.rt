// A script's listing with the state after each event's line, whole or what changed: for comparing with the Rust, and for people who debug.
//
// The state lines are a test instrument: they are safe, and what they show no definition says.
#![tactic(auto)]

mod buffer;
mod changes;
mod state;

use buffer::Buffer;
use listing::{Line, put_end, put_line, put_refused};
use machine::state::Machine;
use script::event_at;
use script::header::{Header, copy_image, event_place, header_of};
use state::State;
use std::io;
use std::io::Write;

// An event's line, and of the state after it the lines that `before` has not. Where only changes are wanted, that state is the next one's
// `before`; else `before` stays without a line, so that all are shown: it is a text in both, and an `Option` would have no other use.
fn show_event<W: Write>(
    to: &mut W,
    k: u32,
    line: Line,
    state: State,
    before: &mut Buffer,
    only_changes: bool,
) -> io::Result<()> {
    let mut now = Buffer::new();
    state.put(&mut now);
    let mut out = Buffer::new();
    out.filled = put_line(&mut out.bytes, 0, k, line);
    changes::put_changes(&mut out, now.text(), before.text());
    if only_changes {
        *before = now;
    }
    to.write_all(out.text())
}

fn show_end<W: Write>(to: &mut W, n: u32) -> io::Result<()> {
    let mut out = Buffer::new();
    out.filled = put_end(&mut out.bytes, 0, n);
    to.write_all(out.text())
}

// It differs from `show_end` in one call: a closure for that would be longer than the function.
fn show_refused<W: Write>(to: &mut W, n: u32) -> io::Result<()> {
    let mut out = Buffer::new();
    out.filled = put_refused(&mut out.bytes, 0, n);
    to.write_all(out.text())
}

// The memory, as long as the image, becomes the image; then each event in order.
fn show_good<W: Write>(
    to: &mut W,
    script: &[u8],
    h: Header,
    mem: &mut [u8],
    only_changes: bool,
) -> io::Result<()> {
    copy_image(script, h.image_at as usize, mem);
    let mut machine = Machine::new(h.base, h.image, h.penalty);
    let mut before = Buffer::new();
    for k in 0..h.events {
        let event = event_at(script, event_place(h, k));
        let stepped = machine.step(mem, h.base, event);
        machine = stepped.machine;
        let state = State {
            machine: &machine,
            mem,
        };
        show_event(to, k, stepped.line, state, &mut before, only_changes)?;
    }
    show_end(to, h.events)
}

fn show_script<W: Write>(to: &mut W, script: &[u8], only_changes: bool) -> io::Result<()> {
    match header_of(script) {
        Err(refusal) => show_refused(to, refusal.number()),
        Ok(h) => {
            // Room for the largest image: a library has no heap.
            let mut mem = [0u8; 32768];
            let image = h.image as usize;
            show_good(to, script, h, &mut mem[..image], only_changes)
        }
    }
}

// Writes the listing with all lines of the state after each event.
pub fn show<W: Write>(to: &mut W, script: &[u8]) -> io::Result<()> {
    show_script(to, script, false)
}

// The same, but of a state only the lines that the one before has not; after the first event all of them.
pub fn show_changes<W: Write>(to: &mut W, script: &[u8]) -> io::Result<()> {
    show_script(to, script, true)
}
