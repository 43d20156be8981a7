// The corner of document 01's table that is only run: a fill takes the slot of the access's first page.
//
// The TLB is full, next_victim is 0 and slot 0 alone holds page 5; page 6 is missing there and leads to physical page 0x21; both
// are user-readable. A load of 4 at 0x5FFE is allowed, its check walks for page 6 and fills slot 0, and the data's lookup then
// finds no page 5: the bytes come from 0xFFE, 0xFFF, 0x21000, 0x21001. The line has the value, the words that the walk read,
// next_victim, and slot 0: valid, virtual page, physical page, flags.
#![tactic(auto)]

use mmu::exception::Access;
use mmu::tlb::TlbEntry;
use mmu::vm::Vm;
use privilege::state::SystemState;
use std::io;
use std::io::Write;

const VA: u32 = 0x5FFE;

const MEMORY: usize = 0x22000;

// More bytes than the line has.
const LINE_MAX: usize = 128;

// A user-readable page that leads to physical page 3.
fn entry(vpn: u32) -> TlbEntry {
    TlbEntry {
        valid: true,
        vpn,
        ppn: 3,
        flags: 0x12,
    }
}

// Page 5 in slot 0, pages 7 to 21 in the others.
fn full_vm() -> Vm {
    let mut vm = Vm::new().fill(entry(5));
    for page in 7..22 {
        vm = vm.fill(entry(page));
    }
    vm.enabled = true;
    vm.ptbr = 0x1000;
    vm
}

fn user_state() -> SystemState {
    SystemState {
        user: true,
        vm: full_vm(),
        ..SystemState::new()
    }
}

// Page 1 has the level-1 words and page 2 the leaves, of page 5 to page 3 and of page 6 to page 0x21.
fn put_tables(mem: &mut [u8; MEMORY]) {
    mem[0x1000..0x1004].copy_from_slice(&[0x00, 0x00, 0x20, 0x01]);
    mem[0x2014..0x201C].copy_from_slice(&[0x00, 0x00, 0x30, 0x13, 0x00, 0x02, 0x10, 0x13]);
}

// The four bytes that are read, and two in page 5's frame that are not.
fn put_data(mem: &mut [u8; MEMORY]) {
    mem[0x0FFE..0x1000].copy_from_slice(&[0xA1, 0xA2]);
    mem[0x21000..0x21002].copy_from_slice(&[0xA3, 0xA4]);
    mem[0x3FFE..0x4000].copy_from_slice(&[0xB1, 0xB2]);
}

// The line goes out by one call.
fn show<W: Write>(to: &mut W, value: u32, reads: u32, vm: Vm) -> io::Result<()> {
    let mut line = [0u8; LINE_MAX];
    let mut room = line.as_mut_slice();
    let slot = vm.tlb[0];
    write!(room, "{value:08X} {reads} {}", vm.next_victim)?;
    writeln!(
        room,
        " {:X} {:08X} {:08X} {:02X}",
        slot.valid as u8, slot.vpn, slot.ppn, slot.flags
    )?;
    let filled = LINE_MAX.saturating_sub(room.len());
    to.write_all(&line[..filled])
}

// Nothing is printed where the check denies the load or its data has a bus error.
fn main(rt: HostRuntime) -> io::Result<()> {
    let mut mem = [0u8; MEMORY];
    put_tables(&mut mem);
    put_data(&mut mem);
    let checked = user_state().check_access(&mem, 0, VA, 4, Access::Read);
    if checked.permission.is_err() {
        return Ok(());
    }
    let Ok(value) = checked.sys.read_data(&mem, 0, VA, 4) else {
        return Ok(());
    };
    show(&mut rt.stdout(), value, checked.reads, checked.sys.vm)
}
