// Operations on the privilege state, the registers and the lent memory.
use crate::answer::{Answer, Fault, shown};
use common::Refusal;
use digest::{FNV_START, fnv_byte, fnv_words};
use mmu::exception::Access;
use privilege::check::data_size;
use privilege::debug::DebugTranslation;
use privilege::registers::SrWritten;
use privilege::state::{InstructionMode, SystemState, mode_of};
use privilege::trap::{Returned, Trapped};
use script::Event;

// The state, where the memory starts, and what the last operation answers beside its outcome.
#[derive(Clone, Copy)]
pub struct Replay {
    pub sys: SystemState,
    reg: [u32; 32],
    base: u32,
    mode: InstructionMode,
    reads: u32,
}

// The access of a check without data.
fn chosen_access(b: u32) -> Access {
    match b % 3 {
        0 => Access::Read,
        1 => Access::Write,
        _ => Access::Fetch,
    }
}

fn legal_size(size: u32, access: Access) -> bool {
    match access {
        Access::Fetch => size != 1 && data_size(size),
        _ => data_size(size),
    }
}

fn outcome_digest(h: u32, outcome: Result<u32, Fault>) -> u32 {
    let (letter, value) = shown(outcome);
    fnv_words(h, &[letter as u32, value])
}

impl Replay {
    pub fn new(base: u32) -> Replay {
        Replay {
            sys: SystemState::new(),
            reg: [0u32; 32],
            base,
            mode: InstructionMode::Normal,
            reads: 0,
        }
    }

    fn check(&mut self, mem: &[u8], e: Event, access: Access) -> Result<u32, Fault> {
        let checked = self
            .sys
            .check_access(mem, self.base, e.a, e.size as u32, access);
        self.sys = checked.sys;
        self.reads = checked.reads;
        checked.permission?;
        Ok(0)
    }

    // A load or a fetch: the check, then the data.
    fn load(&mut self, mem: &[u8], e: Event, access: Access) -> Result<u32, Fault> {
        self.check(mem, e, access)?;
        Ok(self.sys.read_data(mem, self.base, e.a, e.size as u32)?)
    }

    fn store(&mut self, mem: &mut [u8], e: Event) -> Result<u32, Fault> {
        self.check(mem, e, Access::Write)?;
        self.sys
            .write_data(mem, self.base, e.a, e.size as u32, e.b)?;
        Ok(0)
    }

    fn allows(&self, e: Event) -> Result<u32, Fault> {
        let access = chosen_access(e.b);
        let size = e.size as u32;
        if !legal_size(size, access) {
            return Err(Fault::Refused(Refusal::Size));
        }
        Ok(self.sys.allows(e.a, size, access) as u32)
    }

    fn trap(&mut self, e: Event) {
        let mode = mode_of(e.aux % 2 == 1);
        let Trapped { sys, reg } = self.sys.enter_trap(self.reg, e.a, e.b, mode);
        self.sys = sys;
        self.reg = reg;
    }

    // The PC to resume.
    fn resume(&mut self) -> u32 {
        let Returned {
            sys,
            reg,
            epc,
            mode,
        } = self.sys.leave_trap(self.reg);
        self.sys = sys;
        self.reg = reg;
        self.mode = mode;
        epc
    }

    fn read_register(&self, number: u16) -> Result<u32, Fault> {
        Ok(self.sys.read_sr(number, self.reg)?)
    }

    fn write_register(&mut self, number: u16, value: u32) -> Result<u32, Fault> {
        let SrWritten { sys, reg, answer } = self.sys.write_sr(number, value, self.reg);
        self.sys = sys;
        self.reg = reg;
        answer?;
        Ok(0)
    }

    // Writes a value to each system register number in order and reads it back: the digest of those answers.
    fn every_register(&mut self, value: u32) -> u32 {
        let mut h = FNV_START;
        for number in 0..=u16::MAX {
            h = outcome_digest(h, self.write_register(number, value));
            h = outcome_digest(h, self.read_register(number));
        }
        h
    }

    fn translate(&self, mem: &[u8], va: u32) -> Result<u32, Fault> {
        match self.sys.debug_translate(mem, self.base, va)? {
            DebugTranslation::Mapped {
                physical,
                flags: _,
                in_tlb: _,
            } => Ok(physical),
            DebugTranslation::Unmapped => Err(Fault::Unmapped),
            DebugTranslation::BusError => Err(Fault::BusError),
        }
    }

    fn operate(&mut self, mem: &mut [u8], e: Event) -> Result<u32, Fault> {
        // Any byte is a kind, and each arm is one call: an enum or a table would name it twice.
        match e.kind {
            0 => return self.load(mem, e, Access::Read),
            1 => return self.store(mem, e),
            2 => return self.load(mem, e, Access::Fetch),
            3 => self.trap(e),
            4 => return Ok(self.resume()),
            5 => return self.read_register(e.aux),
            6 => return self.write_register(e.aux, e.a),
            7 => return self.check(mem, e, chosen_access(e.b)),
            8 => return self.allows(e),
            9 => return Ok(self.sys.physical(e.a)),
            10 => return self.translate(mem, e.a),
            11 => self.reg[(e.size % 32) as usize] = e.a,
            12 => return Ok(self.every_register(e.a)),
            _ => {}
        }
        Ok(0)
    }

    pub fn step(&mut self, mem: &mut [u8], e: Event) -> Answer {
        self.mode = InstructionMode::Normal;
        self.reads = 0;
        let outcome = self.operate(mem, e);
        Answer {
            outcome,
            mode: self.mode,
            reads: self.reads,
        }
    }

    // R28 to R30 of user mode: in it the live registers, else the saved bank.
    fn user_bank(&self) -> [u32; 3] {
        if self.sys.user {
            return [self.reg[28], self.reg[29], self.reg[30]];
        }
        self.sys.other_bank
    }

    // The digest of all that a line does not show: the user's R28 to R30, the registers, the regions, the MMU and the memory.
    pub fn witness(&self, mem: &[u8]) -> u32 {
        let vm = self.sys.vm;
        let mut h = fnv_words(FNV_START, &self.user_bank());
        h = fnv_words(h, &self.reg);
        for region in self.sys.regions {
            h = fnv_words(h, &[region.start, region.end, region.flags]);
        }
        let victim = (vm.next_victim % 0x1_0000_0000) as u32;
        h = fnv_words(h, &[vm.enabled as u32, vm.ptbr, vm.vfault, victim]);
        for entry in vm.tlb {
            h = fnv_words(h, &[entry.valid as u32, entry.vpn, entry.ppn, entry.flags]);
        }
        for &byte in mem {
            h = fnv_byte(h, byte);
        }
        h
    }
}
