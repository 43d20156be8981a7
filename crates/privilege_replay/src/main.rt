// Replays operations on the privilege state from standard input and writes the answer and the state after each.
//
// The input has the form of a script, whose last header word is unused; its image is the memory. Kinds: 0 load, 1 store of b,
// 2 fetch of `size` bytes at a; 3 trap with EPC a, CAUSE b, Short if `aux` is odd; 4 IRET; 5 read system register `aux`; 6 write
// a to it; 7 check alone of access b modulo 3 (read, write, fetch); 8 `allows` of the same; 9 `physical` of a; 10
// `debug_translate` of a; 11 register `size` modulo 32 becomes a; 12 each system register number in order is written with a and
// read back, and the value is the digest of those answers; others change nothing. A line has the answer's letter, value and
// instruction mode, the words that a check's walks read, STATUS, EPC, CAUSE, and the digest of the rest.
#![tactic(auto)]

mod answer;
mod replay;

use answer::Answer;
use input::read_full;
use replay::Replay;
use script::event_at;
use script::header::{copy_image, event_place, header_of};
use std::io;
use std::io::Write;

// What is read of the input, more than the longest script has; the rest is left.
const INPUT_MAX: usize = 65536;

// Room for the largest image.
const MEMORY_MAX: usize = 32768;

// More bytes than a line has.
const LINE_MAX: usize = 128;

// A line goes out by one call.
fn show<W: Write>(to: &mut W, answer: Answer, replay: &Replay, witness: u32) -> io::Result<()> {
    let mut line = [0u8; LINE_MAX];
    let mut room = line.as_mut_slice();
    let status = replay.sys.status();
    let epc = replay.sys.epc;
    let cause = replay.sys.cause;
    writeln!(
        room,
        "{answer} {status:08X} {epc:08X} {cause:08X} {witness:08X}"
    )?;
    let filled = LINE_MAX.saturating_sub(room.len());
    to.write_all(&line[..filled])
}

// The memory, as long as the image, becomes the image; then each event in order. Nothing is written where the input is refused.
fn main(rt: HostRuntime) -> io::Result<()> {
    let mut input = [0u8; INPUT_MAX];
    let length = read_full(&mut rt.stdin(), &mut input)?;
    let script = &input[..length];
    let Ok(h) = header_of(script) else {
        return Ok(());
    };
    let mut mem = [0u8; MEMORY_MAX];
    let Some(mem) = mem.get_mut(..h.image as usize) else {
        return Ok(());
    };
    copy_image(script, h.image_at as usize, mem);
    let mut out = rt.stdout();
    let mut replay = Replay::new(h.base);
    for k in 0..h.events {
        let answer = replay.step(mem, event_at(script, event_place(h, k)));
        show(&mut out, answer, &replay, replay.witness(mem))?;
    }
    Ok(())
}
