// Replays MMU operations from standard input and writes the answer and the TLB after each.
//
// The input has the form of a script, whose last header word is the first PTBR, low bits kept; its image is the memory.
// Translation is on. Kinds: 0, 1, 2 check a read, a write, a fetch of `size` bytes at a; 3 flush; 4 TLBINV of address a;
// 5 PTBR becomes a, with no flush; 6 the physical word at a becomes b; 7 translate a by the TLB or a walk, with no fill;
// others do nothing. A line has the answer's letter and two numbers, the words that a check's walks read, next_victim, and the
// TLB's digest.
#![tactic(auto)]

mod answer;
mod line;
mod replay;

use answer::Answer;
use input::read_full;
use line::Line;
use replay::Replay;
use script::event_at;
use script::header::{copy_image, event_place, header_of};
use std::fmt::Write as _;
use std::io;
use std::io::Write;

// What is read of the input, more than the longest script has; the rest is left.
const INPUT_MAX: usize = 65536;

// Room for the largest image.
const MEMORY_MAX: usize = 32768;

// A line goes out by one call.
fn show<W: Write>(to: &mut W, answer: Answer, replay: &Replay) -> io::Result<()> {
    let mut line = Line::new();
    let victim = replay.vm.next_victim;
    let digest = replay.tlb_digest();
    // It always succeeds: what has no room is left out.
    let _ = write!(line, "{answer} {victim} {digest:08X}\n");
    to.write_all(line.text())
}

// The memory, as long as the image, becomes the image; then each event in order. Nothing is written where the input is refused. `privilege_replay` starts
// alike: a function for both would hand back the input, its header and the memory, and be as long.
fn main(rt: HostRuntime) -> io::Result<()> {
    let mut input = [0u8; INPUT_MAX];
    let length = read_full(&mut rt.stdin(), &mut input)?;
    let script = &input[..length];
    let Ok(h) = header_of(script) else {
        return Ok(());
    };
    let mut mem = [0u8; MEMORY_MAX];
    let Some(mem) = mem.get_mut(..h.image as usize) else {
        return Ok(());
    };
    copy_image(script, h.image_at as usize, mem);
    let mut out = rt.stdout();
    let mut replay = Replay::new(h.base, h.penalty);
    for k in 0..h.events {
        let answer = replay.step(mem, event_at(script, event_place(h, k)));
        show(&mut out, answer, &replay)?;
    }
    Ok(())
}
