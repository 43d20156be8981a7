// Regions as words: START, END and FLAGS of each region in turn. They are lent as a part of the state's words, `sys[REGIONS..VM]`,
// which is a slice: to make it an array each caller would have to rule out another length first. The searches are loops, as document 01 wants them.
ghost use Rattle.std.specs.Prelude.{◌≡◌, ◌<◌, true, length, slice_index_or, slice_set};
ghost use Rattle.privilege.specs.Addresses.{addresses};
ghost use Rattle.privilege.specs.Flat.{regions_at};
ghost use Rattle.privilege.specs.Region.{some_grants, byte_allowed, all_allowed, field_written};
ghost use Rattle.privilege.specs.State.{no_region};

use crate::region::{REGION_COUNT, Region};
use mmu::check::CPU_RESERVED_BASE;
use mmu::exception::Access;

pub const REGION_WORDS: usize = 3;

// Region `n`.
pub(crate) fn region_at(regions: &[u32], n: usize) -> Region
    requires { (length regions.now ≡ 24) × (n < 8) }
    ensures { result ≡ slice_index_or (regions_at regions.now) n no_region }
{
    let at = REGION_WORDS * n;
    Region {
        start: regions[at],
        end: regions[at + 1],
        flags: regions[at + 2],
    }
}

// Where region `n` ends.
fn end_at(regions: &[u32], n: usize) -> u32
    requires { (length regions.now ≡ 24) × (n < 8) }
    ensures { result ≡ (slice_index_or (regions_at regions.now) n no_region).end }
{
    regions[REGION_WORDS * n + 1]
}

// The words of region `n`.
fn put_region(regions: &mut [u32], n: usize, region: Region)
    requires { (length regions.old ≡ 24) × (n < 8) }
    ensures { regions_at regions.new ≡ slice_set (regions_at regions.old) n region }
{
    let at = REGION_WORDS * n;
    regions[at] = region.start;
    regions[at + 1] = region.end;
    regions[at + 2] = region.flags;
}

// One field of region `n` written.
pub(crate) fn write_field(regions: &mut [u32], n: usize, field: usize, value: u32)
    requires { (length regions.old ≡ 24) × (n < 8) }
    ensures { regions_at regions.new ≡ field_written (regions_at regions.old) n field value }
{
    let region = region_at(regions, n);
    put_region(regions, n, region.with_field(field, value));
}

// The words of eight regions.
pub(crate) fn put_regions(words: &mut [u32], regions: [Region; 8])
    requires { length words.old ≡ 24 }
    ensures { regions_at words.new ≡ regions }
{
    for (i, region) in regions.iter().enumerate() {
        put_region(words, i, *region);
    }
}

// The regions of those words.
pub(crate) fn regions_of(words: &[u32]) -> [Region; 8]
    requires { length words.now ≡ 24 }
    ensures { result ≡ regions_at words.now }
{
    let none = Region {
        start: 0,
        end: 0,
        flags: 0,
    };
    let mut regions = [none; 8];
    for (i, region) in regions.iter_mut().enumerate() {
        *region = region_at(words, i);
    }
    regions
}

fn some_grants(regions: &[u32], addr: u32, access: Access) -> bool
    requires { length regions.now ≡ 24 }
    ensures { result ≡ some_grants (regions_at regions.now) addr access }
{
    for i in 0..REGION_COUNT {
        if region_at(regions, i).grants(addr, access) {
            return true;
        }
    }
    false
}

fn byte_allowed(regions: &[u32], addr: u32, access: Access) -> bool
    requires { length regions.now ≡ 24 }
    ensures { result ≡ byte_allowed (regions_at regions.now) access addr }
{
    if addr >= CPU_RESERVED_BASE {
        return false;
    }
    some_grants(regions, addr, access)
}

// Whether one region grants the whole access, so that its bytes need not be looked at one by one. Of most regions only the end is read.
fn one_grants(regions: &[u32], addr: u32, len: u32, access: Access) -> bool
    requires { length regions.now ≡ 24 }
    ensures { result ≡ true → all_allowed (regions_at regions.now) access (addresses len addr) ≡ true }
{
    if len > CPU_RESERVED_BASE {
        return false;
    }
    if addr > CPU_RESERVED_BASE - len {
        return false;
    }
    for i in 0..REGION_COUNT {
        if addr + len <= end_at(regions, i) {
            if region_at(regions, i).grants(addr, access) {
                return true;
            }
        }
    }
    false
}

// Every byte of an access.
pub(crate) fn all_allowed(regions: &[u32], addr: u32, len: u32, access: Access) -> bool
    requires { length regions.now ≡ 24 }
    ensures { result ≡ all_allowed (regions_at regions.now) access (addresses len addr) }
{
    if one_grants(regions, addr, len, access) {
        return true;
    }
    for i in 0..len {
        if !byte_allowed(regions, addr.wrapping_add(i), access) {
            return false;
        }
    }
    true
}
