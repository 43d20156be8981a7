// Reads a script on standard input and prints its listing, with the whole state after each event's line.
#![tactic(auto)]

use input::read_full;
use std::io;

// What is read of the input, more than the longest script has; the rest is left.
const INPUT_MAX: usize = 65536;

fn main(rt: HostRuntime) -> io::Result<()> {
    let mut script = [0u8; INPUT_MAX];
    let length = read_full(&mut rt.stdin(), &mut script)?;
    inspection::show(&mut rt.stdout(), &script[..length])
}
