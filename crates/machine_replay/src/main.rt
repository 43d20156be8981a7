// Replays scripts from standard input and writes the listing of each, with the state lines that changed after each event's line.
//
// The scripts stand in a row, each behind its length in four bytes. One that the input's end cuts off is not run, and a line says so.
#![tactic(auto)]

use common::be_word;
use input::read_full;
use std::io;
use std::io::Write;

// What is read of the input; the rest is left.
const INPUT_MAX: usize = 524288;

fn show_all<W: Write>(to: &mut W, input: &[u8]) -> io::Result<()> {
    let mut rest = input;
    while let Some((length, scripts)) = rest.split_first_chunk::<4>() {
        let [a, b, c, d] = *length;
        let length = be_word(a, b, c, d) as usize;
        let Some((script, next)) = scripts.split_at_checked(length) else {
            break;
        };
        inspection::show_changes(to, script)?;
        rest = next;
    }
    if rest.is_empty() {
        return Ok(());
    }
    to.write_all(b"cut off\n")
}

// A function of its own: where so long an array is made, the proof of what is done with it does not end.
fn empty_input() -> [u8; INPUT_MAX] {
    [0u8; INPUT_MAX]
}

fn main(rt: HostRuntime) -> io::Result<()> {
    let mut input = empty_input();
    let length = read_full(&mut rt.stdin(), &mut input)?;
    show_all(&mut rt.stdout(), &input[..length])
}
