// The check of an access in any mode.
ghost use Rattle.std.specs.Prelude.{◌≡◌};
ghost use Rattle.memory.specs.Memory.{lent};
ghost use Rattle.privilege.specs.Access.{fetch_size, data_size, legal_size, translating_of, allows_of, access_answered, check_legal, check_access};

use crate::region::all_allowed;
use crate::state::SystemState;
use common::Refusal;
use memory::gate::admit;
use mmu::exception::{Access, Exception};

// Why an access is not permitted: the exception to raise, or a refusal.
#[derive(Clone, Copy)]
pub enum AccessError {
    Denied(Exception),
    Refused(Refusal),
}

#[derive(Drop)]
pub struct AccessChecked {
    pub sys: SystemState,
    pub permission: Result<(), AccessError>,
    // Table words read.
    pub reads: u32,
}

// The sizes of a fetch.
#[tactic(auto, unfolding(crate::specs::Access::fetch_size))]
fn fetch_size(size: u32) -> bool
    ensures { result ≡ fetch_size size }
{
    size == 2 || size == 4
}

// The sizes of a load or store.
#[tactic(auto, unfolding(crate::specs::Access::data_size))]
pub fn data_size(size: u32) -> bool
    ensures { result ≡ data_size size }
{
    size == 1 || fetch_size(size)
}

// A word is legal for every access, and frequent: it is asked first.
pub(crate) fn legal_size(size: u32, access: Access) -> bool
    ensures { result ≡ legal_size access size }
{
    if size == 4 {
        return true;
    }
    match access {
        Access::Read => data_size(size),
        Access::Write => data_size(size),
        Access::Fetch => fetch_size(size),
    }
}

fn answer(sys: SystemState, permission: Result<(), AccessError>) -> AccessChecked
    ensures { result ≡ access_answered sys permission }
{
    AccessChecked {
        sys,
        permission,
        reads: 0,
    }
}

impl SystemState {
    // A user's accesses are translated.
    #[tactic(auto, unfolding(crate::specs::Access::translating_of))]
    pub fn translating(self) -> bool
        ensures { result ≡ translating_of self }
    {
        self.user && self.vm.enabled
    }

    // A supervisor's access is never checked; of a user's every byte needs a region that grants it.
    #[tactic(auto, unfolding(crate::specs::Access::allows_of))]
    pub fn allows(self, addr: u32, len: u32, access: Access) -> bool
        ensures { result ≡ allows_of self addr len access }
    {
        !self.user || all_allowed(self.regions, addr, len, access)
    }

    // Whether the current mode may make this access. A denied one yields the exception to raise; nothing has been read or
    // written but table words.
    pub fn check_access(
        self,
        mem: &[u8],
        base: u32,
        addr: u32,
        len: u32,
        access: Access,
    ) -> AccessChecked
        ensures { result ≡ check_access (lent base mem.now) self addr len access }
    {
        match admit(mem, base, legal_size(len, access)) {
            Ok(()) => self.check_legal(mem, base, addr, len, access),
            Err(refusal) => answer(self, Err(AccessError::Refused(refusal))),
        }
    }

    // An access of a legal size over a good map.
    fn check_legal(
        mut self,
        mem: &[u8],
        base: u32,
        addr: u32,
        len: u32,
        access: Access,
    ) -> AccessChecked
        ensures { result ≡ check_legal (lent base mem.now) self addr len access }
    {
        if self.translating() {
            let checked = self.vm.check_pages(mem, base, addr, len, access);
            self.vm = checked.vm;
            return AccessChecked {
                sys: self,
                permission: checked.verdict.map_err(AccessError::Denied),
                reads: checked.reads,
            };
        }
        if self.allows(addr, len, access) {
            return answer(self, Ok(()));
        }
        answer(
            self,
            Err(AccessError::Denied(Exception::ProtectionFault(access))),
        )
    }
}
