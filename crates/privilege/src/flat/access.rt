// The check of an access in any mode, and where its bytes are, where the words stand.
ghost use Rattle.std.specs.Prelude.{◌≡◌, ◌<◌, ◌≤◌, length};
ghost use Rattle.memory.specs.Memory.{lent};
ghost use Rattle.privilege.specs.Access.{check_legal};
ghost use Rattle.privilege.specs.Flat.{sys_at, regions_at};
ghost use Rattle.privilege.specs.Flat.Access.{bare_permit, regions_permit, refused_as, Answers, Permits, Translated, Grants};
ghost use Rattle.privilege.specs.Rows.{next_page};

use crate::check::{AccessError, legal_size};
use crate::flat::regions::all_allowed;
use crate::flat::{REG, REGIONS, SYSTEM_WORDS, USER, VM};
use crate::state::PAGE_SIZE;
use crate::transfer::join;
use common::Refusal;
use memory::gate::admit;
use mmu::exception::{Access, Exception};
use mmu::flat::{ENABLED, PageGrant, check_pages, frame_of, grant_page};

// Where an allowed access is: its first byte and, where it lies over two pages, the second page's first. Of an access inside its
// page `pb` is 0: the rows of any access are moved by both numbers.
#[derive(Clone, Copy)]
pub struct Place {
    pub pa: u32,
    pub pb: u32,
}

// What the check of an access permits.
#[derive(Drop)]
pub struct Permit {
    pub place: Result<Place, AccessError>,
    // Table words read.
    pub reads: u32,
}

// `check_access`, for an access over one page or two.
pub fn check_access(
    sys: &mut [u32],
    mem: &[u8],
    base: u32,
    addr: u32,
    len: u32,
    access: Access,
) -> Permit
    ensures { Permits (lent base mem.now) sys.old addr len access result sys.new }
{
    let Some(sys) = sys.as_mut_array::<SYSTEM_WORDS>() else {
        return refused(Refusal::Map);
    };
    match admit(mem, base, legal_size(len, access)) {
        Ok(()) => check_legal(sys, mem, base, addr, len, access),
        Err(refusal) => refused(refusal),
    }
}

fn refused(refusal: Refusal) -> Permit
    ensures { result ≡ refused_as refusal }
{
    Permit {
        place: Err(AccessError::Refused(refusal)),
        reads: 0,
    }
}

// An access of a legal size over a good map. A supervisor's is never checked.
fn check_legal(
    sys: &mut [u32; SYSTEM_WORDS],
    mem: &[u8],
    base: u32,
    addr: u32,
    len: u32,
    access: Access,
) -> Permit
    requires { (0 < len) × (len ≤ 4) }
    ensures { Answers (check_legal (lent base mem.now) (sys_at sys.old) addr len access) sys.old addr len result sys.new }
{
    if sys[USER] % 2 == 1 {
        if sys[VM + ENABLED] % 2 == 1 {
            return check_translated(&mut sys[VM..REG], mem, base, addr, len, access);
        }
        return check_regions(&sys[REGIONS..VM], addr, len, access);
    }
    bare(addr, len)
}

// The first address after `addr`'s page.
fn next_page(addr: u32) -> u32
    ensures { result ≡ next_page addr }
{
    addr.wrapping_add(PAGE_SIZE - addr % PAGE_SIZE)
}

// An allowed access that is not translated.
fn bare(addr: u32, len: u32) -> Permit
    ensures { result ≡ bare_permit addr len }
{
    if len <= PAGE_SIZE - addr % PAGE_SIZE {
        return Permit {
            place: Ok(Place { pa: addr, pb: 0 }),
            reads: 0,
        };
    }
    Permit {
        place: Ok(Place {
            pa: addr,
            pb: next_page(addr),
        }),
        reads: 0,
    }
}

// A user's access that is not translated.
fn check_regions(regions: &[u32], addr: u32, len: u32, access: Access) -> Permit
    requires { length regions.now ≡ 24 }
    ensures { result ≡ regions_permit (regions_at regions.now) addr len access }
{
    if all_allowed(regions, addr, len, access) {
        return bare(addr, len);
    }
    Permit {
        place: Err(AccessError::Denied(Exception::ProtectionFault(access))),
        reads: 0,
    }
}

// A translated access. The frame that the check found is its last page's; inside a page nothing is looked up again. Translation's words are a part of the
// state's, which is lent as a slice.
fn check_translated(
    vm: &mut [u32],
    mem: &[u8],
    base: u32,
    addr: u32,
    len: u32,
    access: Access,
) -> Permit
    requires { (length vm.old ≡ 69) × (0 < len) × (len ≤ 4) }
    ensures { Translated (lent base mem.now) vm.old addr len access result vm.new }
{
    let found = check_pages(vm, mem, base, addr, len, access);
    let reads = found.reads;
    let ppn = match found.frame {
        Ok(ppn) => ppn,
        Err(e) => {
            return Permit {
                place: Err(AccessError::Denied(e)),
                reads,
            };
        }
    };
    if len <= PAGE_SIZE - addr % PAGE_SIZE {
        return Permit {
            place: Ok(Place {
                pa: join(ppn, addr),
                pb: 0,
            }),
            reads,
        };
    }
    Permit {
        place: Ok(Place {
            pa: join(frame_of(vm, addr), addr),
            pb: join(ppn, next_page(addr)),
        }),
        reads,
    }
}

// Where a word is that is granted at once: its first byte's physical address, and the table words read.
#[derive(Drop)]
pub struct Grant {
    pub pa: u32,
    pub reads: u32,
}

// The check of a word inside its page, a supervisor's or translated, where it allows: the frequent access. Elsewhere there is no
// grant and nothing is done, and the check is to be asked. The map is to be good: a size of four bytes is legal for every access.
pub fn grant_word(
    sys: &mut [u32],
    mem: &[u8],
    base: u32,
    addr: u32,
    access: Access,
) -> Option<Grant>
    ensures { Grants (lent base mem.now) sys.old addr access result sys.new }
{
    if sys.len() != SYSTEM_WORDS {
        return None;
    }
    if addr % PAGE_SIZE > PAGE_SIZE - 4 {
        return None;
    }
    if sys[USER] % 2 == 1 {
        if sys[VM + ENABLED] % 2 == 1 {
            let Some(PageGrant { ppn, reads }) = grant_page(
                &mut sys[VM..REG],
                mem,
                base,
                addr,
                access,
            ) else {
                return None;
            };
            return Some(Grant {
                pa: join(ppn, addr),
                reads,
            });
        }
        return None;
    }
    Some(Grant { pa: addr, reads: 0 })
}
