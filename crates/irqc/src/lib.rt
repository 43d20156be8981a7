// IRQC: the external interrupt controller of SRC32, from src/devices/irqc/irqc.rs.
//
// It arbitrates sixteen interrupt sources and presents the lowest numbered one that is pending and enabled. The state
// goes in by value and comes back by value. Tracing and the bus window (`connect_irqc`) are left out.
#![tactic(auto)]

ghost use Rattle.std.specs.Prelude.{◌≡◌};
ghost use Rattle.irqc.specs.Irqc.{new_controller, source_set, levels_set, each_set, pending_cleared, mask_set, output_of, byte_read, byte_written};
ghost use Rattle.irqc.specs.Meaning.{Meaning};

pub mod lent;

const SOURCE_COUNT: u32 = 16;

// C reads both fields, so no `Option` stands here.
#[repr(C)]
#[derive(Clone, Copy)]
pub struct IrqOutput {
    pub valid: bool,
    pub number: u8,
}

// A source's request is latched by `set_source` on a rising edge. Software clears it by writing its bit to the pending
// register, whatever the source's level is by then.
#[repr(C)]
#[derive(Clone, Copy)]
pub struct IrqController {
    pub pending: u16,
    pub enable: u16,
    pub source_level: u16,
}

impl IrqController {
    pub fn new() -> Self
        ensures { result ≡ new_controller }
    {
        Self {
            pending: 0,
            enable: 0,
            source_level: 0,
        }
    }

    // Clears all latched and configured interrupt state.
    pub fn reset(self) -> Self
        ensures { result ≡ new_controller }
    {
        Self::new()
    }

    pub fn pending(self) -> u16
        ensures { result ≡ self.pending }
    {
        self.pending
    }

    pub fn enable_mask(self) -> u16
        ensures { result ≡ self.enable }
    {
        self.enable
    }

    pub fn set_enable_mask(mut self, mask: u16) -> Self
        ensures { result ≡ mask_set self mask }
    {
        self.enable = mask;
        self
    }

    // Sets one source's level. Only a low-to-high transition latches pending; a number of 16 or more does nothing.
    pub fn set_source(mut self, number: u32, level: bool) -> Self
        ensures { result ≡ source_set self number level }
    {
        if number >= SOURCE_COUNT {
            return self;
        }
        let bit = 1u16 << number;
        if level {
            if self.source_level & bit == 0 {
                self.pending |= bit;
            }
            self.source_level |= bit;
        } else {
            self.source_level &= !bit;
        }
        self
    }

    // Sets every source selected by `mask` to its bit in `levels`, as calling `set_source` for each of them would.
    pub fn set_source_levels(self, mask: u16, levels: u16) -> Self
        ensures { result ≡ levels_set self mask levels }
    {
        let on = levels & mask;
        let changed = (self.source_level ^ on) & mask;
        if changed == 0 {
            return self;
        }
        self.set_changed_source_levels(changed, on)
    }

    #[tactic(auto, using(crate::proofs::Sources::next_set, crate::proofs::Sources::next_skip), unfolding(crate::specs::Irqc::each_set))]
    fn set_changed_source_levels(mut self, changed: u16, levels: u16) -> Self
        ensures { result ≡ each_set self changed levels 16 }
    {
        for number in 0..SOURCE_COUNT {
            let bit = 1u16 << number;
            if changed & bit != 0 {
                self = self.set_source(number, levels & bit != 0);
            }
        }
        self
    }

    pub fn clear_pending(mut self, mask: u16) -> Self
        ensures { result ≡ pending_cleared self mask }
    {
        self.pending &= !mask;
        self
    }

    // The count of trailing zeros of the masked word is the lowest active source; 16 means none.
    #[tactic(auto, using(crate::proofs::Output::output_some, crate::proofs::Output::output_none))]
    pub fn irq_output(self) -> IrqOutput
        ensures { result ≡ output_of self }
    {
        let active = self.pending & self.enable;
        let n = active.trailing_zeros();
        if n < SOURCE_COUNT {
            IrqOutput {
                valid: true,
                number: n as u8,
            }
        } else {
            IrqOutput {
                valid: false,
                number: 0,
            }
        }
    }

    // One register byte, high byte first: 0 and 1 are pending, 4 and 5 enable, others read 0.
    #[tactic(auto, unfolding(crate::specs::Irqc::byte_read))]
    pub fn read(self, addr: u32) -> u8
        ensures { result ≡ byte_read self addr }
    {
        match addr {
            0 => self.pending.to_be_bytes()[0],
            1 => self.pending.to_be_bytes()[1],
            4 => self.enable.to_be_bytes()[0],
            5 => self.enable.to_be_bytes()[1],
            _ => 0,
        }
    }

    // Writes one register byte: ones at 0 and 1 clear pending bits, 4 and 5 set a byte of enable, others do nothing.
    #[tactic(auto, unfolding(crate::specs::Irqc::byte_written))]
    pub fn write(self, addr: u32, value: u8) -> Self
        ensures { result ≡ byte_written self addr value }
    {
        let [high, low] = self.enable.to_be_bytes();
        match addr {
            0 => self.clear_pending(u16::from_be_bytes([value, 0])),
            1 => self.clear_pending(u16::from_be_bytes([0, value])),
            4 => self.set_enable_mask(u16::from_be_bytes([value, low])),
            5 => self.set_enable_mask(u16::from_be_bytes([high, value])),
            _ => self,
        }
    }
}

// What the contracts above mean, source by source.
#[tactic(auto, using(crate::proofs::Sentences::meaning_holds))]
pub fn meaning()
    ensures { Meaning }
{}
