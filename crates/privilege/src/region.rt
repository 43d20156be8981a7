// Regions: which addresses a user may touch while translation is off.
ghost use Rattle.std.specs.Prelude.{◌≡◌};
ghost use Rattle.privilege.specs.Addresses.{addresses};
ghost use Rattle.privilege.specs.Region.{grants_of, all_allowed, field_of, with_field, field_written};

use crate::flat::regions::put_regions;
use mmu::exception::{Access, region_bit};

pub const REGION_COUNT: usize = 8;

#[derive(Clone, Copy)]
pub struct Region {
    pub start: u32,
    // Exclusive.
    pub end: u32,
    // Bit 0 R, bit 1 W, bit 2 X.
    pub flags: u32,
}

impl Region {
    pub fn grants(self, addr: u32, access: Access) -> bool
        ensures { result ≡ grants_of self addr access }
    {
        if self.flags & region_bit(access) == 0 {
            return false;
        }
        if addr < self.start {
            return false;
        }
        addr < self.end
    }

    // START, END and FLAGS, as a register's place in its region. Every number is answered, so a field is a number and no enum.
    #[tactic(auto, unfolding(crate::specs::Region::field_of))]
    pub fn field(self, field: usize) -> u32
        ensures { result ≡ field_of self field }
    {
        match field {
            0 => self.start,
            1 => self.end,
            _ => self.flags,
        }
    }

    #[tactic(auto, unfolding(crate::specs::Region::with_field))]
    pub fn with_field(mut self, field: usize, value: u32) -> Self
        ensures { result ≡ with_field self field value }
    {
        match field {
            0 => {
                self.start = value;
                self
            }
            1 => {
                self.end = value;
                self
            }
            _ => {
                self.flags = value & 7;
                self
            }
        }
    }
}

// The table with one field of one region written. Past the table nothing is.
pub fn write_field(regions: [Region; 8], n: usize, field: usize, value: u32) -> [Region; 8]
    ensures { result ≡ field_written regions n field value }
{
    let mut left = regions;
    if n < REGION_COUNT {
        let region = left[n];
        left[n] = region.with_field(field, value);
        return left;
    }
    left
}

// Every byte of an access.
pub fn all_allowed(regions: [Region; 8], addr: u32, len: u32, access: Access) -> bool
    ensures { result ≡ all_allowed regions access (addresses len addr) }
{
    let mut words = [0u32; 24];
    put_regions(&mut words, regions);
    crate::flat::regions::all_allowed(&words, addr, len, access)
}
