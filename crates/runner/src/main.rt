// Reads a script on standard input and prints its listing.
//
// The buffer is longer than the longest script, so that one which is too long is noticed and refused.
#![tactic(auto)]

ghost use Rattle.std.specs.Prelude.{◌≡◌, ◌<◌, ◌≤◌, length, take, IfSome, OnOk};
ghost use Rattle.std.specs.Io.KnownBytes.{Appends, Consumes, IsAtEnd};
ghost use Rattle.machine.specs.Run.{listing_of};

use input::read_full;
use listing::LISTING_MAX;
use machine::run::list_whole;
use std::fmt::{Display, Formatter};
use std::io::{Read, Write};
use std::{fmt, io};

// More bytes than the line on standard error has.
const LINE_MAX: usize = 64;

// Where a run ended before its listing was out.
#[derive(Clone, Copy)]
enum Stopped {
    Reading,
    Writing,
}

impl Display for Stopped {
    fn fmt<W: fmt::Write>(&self, f: &mut Formatter<W>) -> fmt::Result {
        match self {
            Stopped::Reading => write!(f, "the script could not be read to its end"),
            Stopped::Writing => write!(f, "the listing could not be written whole"),
        }
    }
}

// Whether the input goes on, or can't be read, where the reading stopped before the buffer was full.
fn goes_on<R: Read>(from: &mut R) -> bool {
    let mut more = [0u8; 1];
    match from.read(&mut more) {
        Ok(n) => n != 0,
        Err(_) => true,
    }
}

// How long the script is, as far as the buffer has room; nothing where it could not be read to its end.
fn read_script<R: Read>(from: &mut R, script: &mut [u8]) -> Option<usize>
    ensures in_bounds { IfSome result (λ n. (n ≤ length script.new) × (n ≡ length (take n script.new))) }
    ensures front { IfSome result (λ n. IfSome (R.remaining from.old) (λ s. take n script.new ≡ take (length script.new) s)) }
{
    let Ok(n) = read_full(from, script) else {
        return None;
    };
    if n < script.len() && goes_on(from) {
        return None;
    }
    Some(n)
}

fn list_to<W: Write>(to: &mut W, script: &[u8]) -> io::Result<()>
    ensures { OnOk result (Appends (W.contents to.old) (W.contents to.new) (listing_of script.now)) }
{
    let mut out = [0u8; LISTING_MAX];
    let end = list_whole(script, &mut out);
    to.write_all(&out[..end])
}

// Of an input that is known, what is written is its listing, also where it is longer than the buffer.
fn run<R: Read, W: Write>(from: &mut R, to: &mut W) -> Result<(), Stopped>
    ensures { OnOk result (IfSome (R.remaining from.old) (λ s. Appends (W.contents to.old) (W.contents to.new) (listing_of s))) }
{
    // A buffer of its own, and no `Vec`: a script is listed whatever memory can be had.
    let mut script = [0u8; 65536];
    let Some(n) = read_script(from, &mut script) else {
        return Err(Stopped::Reading);
    };
    match list_to(to, &script[..n]) {
        Ok(()) => Ok(()),
        Err(_) => Err(Stopped::Writing),
    }
}

// The line goes out by one call.
fn tell<W: Write>(to: &mut W, stopped: Stopped) -> io::Result<()> {
    let mut line = [0u8; LINE_MAX];
    let mut room = line.as_mut_slice();
    writeln!(room, "runner: {stopped}")?;
    let filled = LINE_MAX.saturating_sub(room.len());
    to.write_all(&line[..filled])
}

fn main(rt: HostRuntime) {
    if let Err(stopped) = run(&mut rt.stdin(), &mut rt.stdout()) {
        let _ = tell(&mut rt.stderr(), stopped);
    }
}
