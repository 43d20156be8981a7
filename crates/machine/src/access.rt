// The combined access, by value: check; the cache once, at the first byte's physical address; memory. A denied check touches neither.
ghost use Rattle.std.specs.Prelude.{◌≡◌, true};
ghost use Rattle.memory.specs.Memory.{lent};
ghost use Rattle.mmu.specs.declared.exception.Access.TheVariants.{Read, Write, Fetch};
ghost use Rattle.machine.specs.Access.{access_of, fault_of, data_fault, is_read};
ghost use Rattle.machine.specs.Flat.{accessed_as};

use crate::flat;
use crate::flat::access::Answer;
use crate::flat::state::{STATE_WORDS, pack, unpack};
use crate::state::Machine;
use common::Refusal;
use mmu::exception::{Access, Exception};
use privilege::check::AccessError;
use privilege::transfer::DataError;

// Why an access has no value.
#[derive(Clone, Copy)]
pub enum Fault {
    Exception(Exception),
    // A byte of the data lies outside the map.
    BusError,
    Refused(Refusal),
}

impl From<AccessError> for Fault {
    ghost from_gives = { λ e f. f ≡ fault_of e };

    fn from(error: AccessError) -> Self {
        match error {
            AccessError::Denied(e) => Fault::Exception(e),
            AccessError::Refused(r) => Fault::Refused(r),
        }
    }
}

impl From<DataError> for Fault {
    ghost from_gives = { λ e f. f ≡ data_fault e };

    fn from(error: DataError) -> Self {
        match error {
            DataError::BusError => Fault::BusError,
            DataError::Refused(r) => Fault::Refused(r),
        }
    }
}

#[derive(Drop)]
pub struct Accessed {
    pub machine: Machine,
    pub outcome: Result<u32, Fault>,
    pub stall: u32,
    pub reads: u32,
}

// Not by `From`: the machine comes beside the answer.
fn with_machine(machine: Machine, answer: Answer) -> Accessed
    ensures { result ≡ accessed_as answer machine }
{
    Accessed {
        machine,
        outcome: answer.outcome,
        stall: answer.stall,
        reads: answer.reads,
    }
}

// Each of these packs, goes where the words stand and unpacks, as a step and a run do. No closure takes that way for them all: what one changes of
// the memory that it borrows stands in no contract.
impl Machine {
    // A load or fetch.
    fn read(self, mem: &[u8], base: u32, addr: u32, size: u32, access: Access) -> Accessed
        requires { is_read access ≡ true }
        ensures { result ≡ (access_of access self (lent base mem.now) addr size 0).accessed }
    {
        let mut state = [0u32; STATE_WORDS];
        pack(&mut state, self);
        let answer = flat::access::read(&mut state, mem, base, addr, size, access);
        with_machine(unpack(&state), answer)
    }

    pub fn load(self, mem: &[u8], base: u32, addr: u32, size: u32) -> Accessed
        ensures { result ≡ (access_of Read self (lent base mem.now) addr size 0).accessed }
    {
        self.read(mem, base, addr, size, Access::Read)
    }

    pub fn fetch(self, mem: &[u8], base: u32, addr: u32, size: u32) -> Accessed
        ensures { result ≡ (access_of Fetch self (lent base mem.now) addr size 0).accessed }
    {
        self.read(mem, base, addr, size, Access::Fetch)
    }

    // The low `size` bytes of `value` go to memory, as many as the map has.
    pub fn store(self, mem: &mut [u8], base: u32, addr: u32, size: u32, value: u32) -> Accessed
        ensures { (result ≡ (access_of Write self (lent base mem.old) addr size value).accessed) × (mem.new ≡ (access_of Write self (lent base mem.old) addr size value).memory.bytes) }
    {
        let mut state = [0u32; STATE_WORDS];
        pack(&mut state, self);
        let answer = flat::access::store(&mut state, mem, base, addr, size, value);
        with_machine(unpack(&state), answer)
    }
}
