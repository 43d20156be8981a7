// Replays controller operations from standard input and writes what the controller shows after each.
//
// An operation is a record of twelve bytes: kind, size, aux, a, b. Kinds: 0 source a to level (size not 0), 1 the sources
// of mask aux to the levels in a, 2 clear pending aux, 3 enable aux, 4 write byte `size` to register a, 5 reset; others do
// nothing. A line has pending, enable, valid, number, the register bytes 0 to 7, and the register byte at a.
#![tactic(auto)]

use input::read_full;
use irqc::IrqController;
use script::{EVENT_SIZE, Event, event_at};
use std::io;
use std::io::Write;
use text::{put_byte, put_hex};

// What is read of the input; the rest is left.
const INPUT_MAX: usize = 65536;

// More bytes than a line has.
const LINE_MAX: usize = 64;

fn step(c: IrqController, e: Event) -> IrqController {
    // Any byte is a kind, and each arm is one call: an enum or a table would name it twice.
    match e.kind {
        0 => c.set_source(e.a, e.size != 0),
        1 => c.set_source_levels(e.aux, (e.a % 65536) as u16),
        2 => c.clear_pending(e.aux),
        3 => c.set_enable_mask(e.aux),
        4 => c.write(e.a, e.size),
        5 => c.reset(),
        _ => c,
    }
}

// A number and the blank after it. These functions take a line and a place, and no `Display` stands for them: by `Display` the fifteen numbers of a line
// took the program more than twice its time.
fn put_field(line: &mut [u8], at: usize, v: u32, digits: u32) -> usize {
    let next = put_hex(line, at, v, digits);
    put_byte(line, next, b' ')
}

fn put_words(line: &mut [u8], c: IrqController) -> usize {
    let next = put_field(line, 0, c.pending() as u32, 4);
    put_field(line, next, c.enable_mask() as u32, 4)
}

fn put_output(line: &mut [u8], at: usize, c: IrqController) -> usize {
    let output = c.irq_output();
    let next = put_field(line, at, output.valid as u32, 1);
    put_field(line, next, output.number as u32, 2)
}

fn put_registers(line: &mut [u8], at: usize, c: IrqController) -> usize {
    let mut place = at;
    for addr in 0..8 {
        place = put_hex(line, place, c.read(addr) as u32, 2);
    }
    put_byte(line, place, b' ')
}

// What the controller shows, and its register byte at an address.
fn put_line(line: &mut [u8], c: IrqController, addr: u32) -> usize {
    let words = put_words(line, c);
    let output = put_output(line, words, c);
    let registers = put_registers(line, output, c);
    let last = put_hex(line, registers, c.read(addr) as u32, 2);
    put_byte(line, last, b'\n')
}

// A line goes out by one call.
fn show<W: Write>(to: &mut W, c: IrqController, addr: u32) -> io::Result<()> {
    let mut line = [0u8; LINE_MAX];
    let filled = put_line(&mut line, c, addr);
    to.write_all(&line[..filled.min(LINE_MAX)])
}

fn main(rt: HostRuntime) -> io::Result<()> {
    let mut input = [0u8; INPUT_MAX];
    let length = read_full(&mut rt.stdin(), &mut input)?;
    let mut out = rt.stdout();
    let mut controller = IrqController::new();
    for record in input[..length].chunks(EVENT_SIZE) {
        let e = event_at(record, 0);
        controller = step(controller, e);
        show(&mut out, controller, e.a)?;
    }
    Ok(())
}
