// Data access after a successful check: where a byte is, loads and stores.
ghost use Rattle.std.specs.Prelude.{◌≡◌, ◌≤◌, true};
ghost use Rattle.memory.specs.Gate.{map_good};
ghost use Rattle.memory.specs.Memory.{lent, read_at};
ghost use Rattle.privilege.specs.Transfer.{joined_to, physical_of, spots, data_read, data_written, memory_after};
ghost use Rattle.privilege.specs.declared.transfer.DataError.TheVariants.{Refused};

use crate::check::data_size;
use crate::rows::{read_each, write_each};
use crate::state::{PAGE_SIZE, SystemState};
use common::Refusal;
use memory::gate::admit;
use memory::read_word;

// Why an access has no data: a byte outside the map, or a refusal.
#[derive(Clone, Copy)]
pub enum DataError {
    BusError,
    Refused(Refusal),
}

impl From<Refusal> for DataError {
    ghost from_gives = { λ r e. e ≡ Refused r };

    fn from(refusal: Refusal) -> Self {
        DataError::Refused(refusal)
    }
}

// The address of `va`'s byte in a physical page.
pub fn join(ppn: u32, va: u32) -> u32
    ensures { result ≡ joined_to ppn va }
{
    (ppn << 12) | (va & (PAGE_SIZE - 1))
}

impl SystemState {
    // The physical address of a byte that `check_access` has allowed. The TLB is looked up again.
    pub fn physical(self, va: u32) -> u32
        ensures { result ≡ physical_of self va }
    {
        if self.translating() {
            let vm = self.vm;
            return join(vm.frame_of(va), va);
        }
        va
    }

    // Big-endian load of 1, 2 or 4 bytes.
    pub fn read_data(self, mem: &[u8], base: u32, va: u32, size: u32) -> Result<u32, DataError>
        ensures { result ≡ data_read (lent base mem.now) self va size }
    {
        admit(mem, base, data_size(size))?;
        self.read_spots(mem, base, va, size)
            .ok_or(DataError::BusError)
    }

    // A word inside a page takes one lookup.
    fn read_spots(self, mem: &[u8], base: u32, va: u32, size: u32) -> Option<u32>
        requires { (size ≤ 4) × (map_good (lent base mem.now) ≡ true) }
        ensures { result ≡ read_at (lent base mem.now) (spots self va size) }
    {
        if size == 4 {
            if va % PAGE_SIZE <= PAGE_SIZE - 4 {
                return read_word(mem, base, self.physical(va));
            }
        }
        read_each(
            mem,
            base,
            size,
            |i| self.physical(va.wrapping_add(i)) as u64,
        )
    }

    // Big-endian store of 1, 2 or 4 bytes. Bytes outside are not written, the others are.
    pub fn write_data(
        self,
        mem: &mut [u8],
        base: u32,
        va: u32,
        size: u32,
        value: u32,
    ) -> Result<(), DataError>
        ensures { (result ≡ data_written (lent base mem.old) self va size) × (mem.new ≡ (memory_after (lent base mem.old) self va size value).bytes) }
    {
        admit(mem, base, data_size(size))?;
        let all = write_each(mem, base, size, value, |i| {
            self.physical(va.wrapping_add(i)) as u64
        });
        all.then_some(()).ok_or(DataError::BusError)
    }
}
