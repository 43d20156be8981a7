// The privilege state and its STATUS word.
ghost use Rattle.std.specs.Prelude.{◌≡◌};
ghost use Rattle.privilege.specs.State.{is_short, new_state, with_status, status_bits, status_of, status_set, mode_of, bit_if};

use crate::region::Region;
use mmu::vm::Vm;

pub const STATUS_IE: u32 = 1 << 0;

pub const STATUS_PIE: u32 = 1 << 1;

pub const STATUS_U: u32 = 1 << 2;

pub const STATUS_PU: u32 = 1 << 3;

pub const STATUS_PSM: u32 = 1 << 4;

pub const PAGE_SIZE: u32 = 4096;

// The length of an instruction.
#[derive(Clone, Copy)]
pub enum InstructionMode {
    Normal,
    Short,
}

// Trap and privilege state: STATUS, EPC, CAUSE, the other mode's bank, regions, translation.
#[derive(Clone, Copy)]
pub struct SystemState {
    pub ie: bool,
    pub pie: bool,
    // The current mode is user.
    pub user: bool,
    pub pu: bool,
    // The instruction mode that IRET restores (STATUS.PSM).
    pub psm: InstructionMode,
    pub epc: u32,
    pub cause: u32,
    // R28 to R30 of the mode that is not current.
    pub other_bank: [u32; 3],
    pub regions: [Region; 8],
    pub vm: Vm,
}

// The theorem of all contracts names this function and the next, where a `From` would have no name.
pub fn is_short(mode: InstructionMode) -> bool
    ensures { result ≡ is_short mode }
{
    matches!(mode, InstructionMode::Short)
}

pub fn mode_of(short: bool) -> InstructionMode
    ensures { result ≡ mode_of short }
{
    if short {
        InstructionMode::Short
    } else {
        InstructionMode::Normal
    }
}

// A bit of a word, if it is on.
pub(crate) fn bit_if(on: bool, bit: u32) -> u32
    ensures { result ≡ bit_if on bit }
{
    if on { bit } else { 0 }
}

// The word STATUS of its bits.
pub(crate) fn status_word(ie: bool, pie: bool, user: bool, pu: bool, short: bool) -> u32
    ensures { result ≡ status_bits ie pie user pu short }
{
    bit_if(ie, STATUS_IE)
        | bit_if(pie, STATUS_PIE)
        | bit_if(user, STATUS_U)
        | bit_if(pu, STATUS_PU)
        | bit_if(short, STATUS_PSM)
}

impl SystemState {
    #[tactic(auto, unfolding(crate::specs::State::no_regions))]
    pub fn new() -> Self
        ensures { result ≡ new_state }
    {
        let region = Region {
            start: 0,
            end: 0,
            flags: 0,
        };
        Self {
            ie: true,
            pie: true,
            user: false,
            pu: false,
            psm: InstructionMode::Normal,
            epc: 0,
            cause: 0,
            other_bank: [0; 3],
            regions: [region; 8],
            vm: Vm::new(),
        }
    }

    pub fn status(self) -> u32
        ensures { result ≡ status_of self }
    {
        status_word(self.ie, self.pie, self.user, self.pu, is_short(self.psm))
    }

    // The same state with other STATUS bits.
    pub fn with_status(
        self,
        ie: bool,
        pie: bool,
        user: bool,
        pu: bool,
        psm: InstructionMode,
    ) -> Self
        ensures { result ≡ with_status self ie pie user pu psm }
    {
        Self {
            ie,
            pie,
            user,
            pu,
            psm,
            ..self
        }
    }

    // A write of STATUS. U is read-only.
    pub fn set_status(self, value: u32) -> Self
        ensures { result ≡ status_set self value }
    {
        self.with_status(
            value & STATUS_IE != 0,
            value & STATUS_PIE != 0,
            self.user,
            value & STATUS_PU != 0,
            mode_of(value & STATUS_PSM != 0),
        )
    }
}
