// The machine's state as one value.
ghost use Rattle.std.specs.Prelude.{◌≡◌};
ghost use Rattle.machine.specs.State.{new_machine, reset_of};

use cache::L1Cache;
use irqc::IrqController;
use privilege::state::SystemState;

#[derive(Drop)]
pub struct Machine {
    pub sys: SystemState,
    pub cache: L1Cache,
    pub irqc: IrqController,
    pub reg: [u32; 32],
}

impl Machine {
    // All parts new, registers 0. The map is cacheable.
    pub fn new(base: u32, len: u32, miss_penalty: u32) -> Self
        ensures { result ≡ new_machine base len miss_penalty }
    {
        let mut cache = L1Cache::new(base, len);
        cache.miss_penalty = miss_penalty;
        Self {
            sys: SystemState::new(),
            cache,
            irqc: IrqController::new(),
            reg: [0; 32],
        }
    }

    // R0 to R31 are kept, and so are the cache's range and penalty.
    #[tactic(auto, unfolding(crate::specs::State::reset_of))]
    pub fn reset(self) -> Self
        ensures { result ≡ reset_of self }
    {
        let reg = self.reg;
        Self {
            sys: SystemState::new(),
            cache: self.cache.reset(),
            irqc: self.irqc.reset(),
            reg,
        }
    }
}
