// Replays cache operations from standard input and writes the answer and the whole state after each.
//
// An operation is a record of twelve bytes: kind, size, aux, a, b. Kinds: 0 load a, 1 store a, 2 fetch a, 3 external write of b
// bytes at a, 4 read register a, 5 write b to it, 6 read register byte a, 7 write `size` to it, 8 reset, 9 new with range a, b,
// 10 penalty a; others do nothing. A line has the value, both enables, the I and D hits and misses, the penalty, the range, and
// the digests of the I and D tags.
#![tactic(auto)]

mod line;

use cache::{CacheAccess, L1Cache};
use digest::{FNV_START, fnv_words};
use input::read_full;
use line::Line;
use script::{EVENT_SIZE, Event, event_at};
use std::fmt::{Display, Formatter, Write as _};
use std::io::Write;
use std::{fmt, io};

// What is read of the input; the rest is left.
const INPUT_MAX: usize = 65536;

#[derive(Clone, Copy)]
struct Answer {
    cache: L1Cache,
    value: u32,
}

// An operation that answers its stall.
impl From<CacheAccess> for Answer {
    fn from(access: CacheAccess) -> Answer {
        Answer {
            cache: access.cache,
            value: access.stall,
        }
    }
}

// An operation that answers nothing.
impl From<L1Cache> for Answer {
    fn from(cache: L1Cache) -> Answer {
        Answer { cache, value: 0 }
    }
}

impl Display for Answer {
    fn fmt<W: fmt::Write>(&self, f: &mut Formatter<W>) -> fmt::Result {
        let c = &self.cache;
        write!(f, "{:08X}", self.value)?;
        write!(f, " {:X} {:X}", c.i.enabled as u8, c.d.enabled as u8)?;
        for bank in [&c.i, &c.d] {
            write!(f, " {:08X} {:08X}", bank.hits, bank.misses)?;
        }
        write!(
            f,
            " {:08X} {:08X} {:08X}",
            c.miss_penalty, c.ram_start, c.ram_end
        )?;
        for bank in [&c.i, &c.d] {
            write!(f, " {:08X}", fnv_words(FNV_START, &bank.tags))?;
        }
        Ok(())
    }
}

fn step(cache: L1Cache, e: Event) -> Answer {
    // Any byte is a kind, and each arm is one call: an enum or a table would name it twice.
    match e.kind {
        0 => Answer::from(cache.load(e.a)),
        1 => Answer::from(cache.store(e.a)),
        2 => Answer::from(cache.fetch(e.a)),
        3 => Answer::from(cache.external_write(e.a, e.b)),
        4 => Answer {
            cache,
            value: cache.read_reg(e.a),
        },
        5 => Answer::from(cache.write_reg(e.a, e.b)),
        6 => Answer {
            cache,
            value: cache.read_byte(e.a) as u32,
        },
        7 => Answer::from(cache.write_byte(e.a, e.size)),
        8 => Answer::from(cache.reset()),
        9 => Answer::from(L1Cache::new(e.a, e.b)),
        10 => Answer::from(L1Cache {
            miss_penalty: e.a,
            ..cache
        }),
        _ => Answer::from(cache),
    }
}

// A line goes out by one call.
fn show<W: Write>(to: &mut W, answer: &Answer) -> io::Result<()> {
    let mut line = Line::new();
    // It always succeeds: what has no room is left out.
    let _ = write!(line, "{answer}\n");
    to.write_all(line.text())
}

fn main(rt: HostRuntime) -> io::Result<()> {
    let mut input = [0u8; INPUT_MAX];
    let length = read_full(&mut rt.stdin(), &mut input)?;
    let mut out = rt.stdout();
    let mut cache = L1Cache::new(0, 0x8000);
    for record in input[..length].chunks(EVENT_SIZE) {
        let answer = step(cache, event_at(record, 0));
        show(&mut out, &answer)?;
        cache = answer.cache;
    }
    Ok(())
}
