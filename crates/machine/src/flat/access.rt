// The combined access where the machine's words stand: check; the cache once, at the first byte's physical address; memory.
ghost use Rattle.std.specs.Prelude.{◌≡◌, true, length};
ghost use Rattle.memory.specs.Gate.{map_good};
ghost use Rattle.memory.specs.Memory.{lent};
ghost use Rattle.mmu.specs.declared.exception.Access.TheVariants.{Read, Write, Fetch};
ghost use Rattle.privilege.specs.Flat.Access.{grant_at};
ghost use Rattle.machine.specs.Access.{is_read};
ghost use Rattle.machine.specs.Event.{access_kind, stored_by};
ghost use Rattle.machine.specs.Flat.{no_answer, answer_of, Asks, Permits, ReadsPermitted, WritesPermitted, Accesses, AccessesAny, Grants, ReadsGranted, WritesGranted};

use crate::access::Fault;
use crate::flat::state::{CACHE, CACHE_END, STATE_WORDS, SYSTEM, SYSTEM_END};
use cache::flat as cache_words;
use common::Refusal;
use memory::span::put_word;
use memory::{good_map, read_word};
use mmu::exception::Access;
use privilege::flat as system_words;
use privilege::flat::access::{Grant, Permit, Place};
use privilege::rows::{read_rows, write_rows};
use privilege::state::PAGE_SIZE;
use script::Event;

// What an access answers.
#[derive(Clone, Copy)]
pub struct Answer {
    pub outcome: Result<u32, Fault>,
    pub stall: u32,
    pub reads: u32,
}

fn answer_of(outcome: Result<u32, Fault>, stall: u32, reads: u32) -> Answer
    ensures { result ≡ answer_of outcome stall reads }
{
    Answer {
        outcome,
        stall,
        reads,
    }
}

// What a slice that is no machine's answers.
fn no_answer() -> Answer
    ensures { result ≡ no_answer }
{
    answer_of(Err(Fault::Refused(Refusal::Map)), 0, 0)
}

// The cache, asked at an address, and what that costs. A store costs nothing.
fn ask(state: &mut [u32; STATE_WORDS], access: Access, pa: u32) -> u32
    ensures { Asks state.old state.new access pa result }
{
    let words = &mut state[CACHE..CACHE_END];
    match access {
        Access::Read => cache_words::load(words, pa),
        Access::Fetch => cache_words::fetch(words, pa),
        Access::Write => {
            cache_words::store(words, pa);
            0
        }
    }
}

// The check of an access, by the privilege state's words.
fn check(
    state: &mut [u32; STATE_WORDS],
    mem: &[u8],
    base: u32,
    addr: u32,
    size: u32,
    access: Access,
) -> Permit
    ensures { Permits state.old state.new (lent base mem.now) addr size access result }
{
    system_words::access::check_access(
        &mut state[SYSTEM..SYSTEM_END],
        mem,
        base,
        addr,
        size,
        access,
    )
}

// A load or fetch after its check.
fn read_permitted(
    state: &mut [u32; STATE_WORDS],
    mem: &[u8],
    base: u32,
    addr: u32,
    size: u32,
    access: Access,
    permit: Permit,
) -> Answer
    requires { is_read access ≡ true }
    ensures { ReadsPermitted state.old state.new (lent base mem.now) addr size access permit result }
{
    match permit.place {
        Ok(Place { pa, pb }) => {
            let stall = ask(state, access, pa);
            let data = read_rows(mem, base, addr, size, pa, pb);
            answer_of(data.map_err(Fault::from), stall, permit.reads)
        }
        Err(error) => answer_of(Err(Fault::from(error)), 0, permit.reads),
    }
}

// A store after its check. Memory is lent to it to be written, and to a load to be read: so the two are no instances of one function.
fn write_permitted(
    state: &mut [u32; STATE_WORDS],
    mem: &mut [u8],
    base: u32,
    addr: u32,
    size: u32,
    value: u32,
    permit: Permit,
) -> Answer
    ensures { WritesPermitted state.old state.new (lent base mem.old) addr size value permit result mem.new }
{
    match permit.place {
        Ok(Place { pa, pb }) => {
            let stall = ask(state, Access::Write, pa);
            let data = write_rows(mem, base, addr, size, pa, pb, value);
            answer_of(data.and(Ok(0)).map_err(Fault::from), stall, permit.reads)
        }
        Err(error) => answer_of(Err(Fault::from(error)), 0, permit.reads),
    }
}

// A load or fetch.
pub(crate) fn read(
    state: &mut [u32],
    mem: &[u8],
    base: u32,
    addr: u32,
    size: u32,
    access: Access,
) -> Answer
    requires { is_read access ≡ true }
    ensures { AccessesAny state.old state.new access base mem.now addr size 0 result mem.now }
{
    let Some(state) = state.as_mut_array::<STATE_WORDS>() else {
        return no_answer();
    };
    let permit = check(state, mem, base, addr, size, access);
    read_permitted(state, mem, base, addr, size, access, permit)
}

pub fn load(state: &mut [u32], mem: &[u8], base: u32, addr: u32, size: u32) -> Answer
    ensures { AccessesAny state.old state.new Read base mem.now addr size 0 result mem.now }
{
    read(state, mem, base, addr, size, Access::Read)
}

pub fn fetch(state: &mut [u32], mem: &[u8], base: u32, addr: u32, size: u32) -> Answer
    ensures { AccessesAny state.old state.new Fetch base mem.now addr size 0 result mem.now }
{
    read(state, mem, base, addr, size, Access::Fetch)
}

// The low `size` bytes of `value` go to memory, as many as the map has.
pub fn store(
    state: &mut [u32],
    mem: &mut [u8],
    base: u32,
    addr: u32,
    size: u32,
    value: u32,
) -> Answer
    ensures { AccessesAny state.old state.new Write base mem.old addr size value result mem.new }
{
    let Some(state) = state.as_mut_array::<STATE_WORDS>() else {
        return no_answer();
    };
    let permit = check(state, mem, base, addr, size, Access::Write);
    write_permitted(state, mem, base, addr, size, value, permit)
}

// ---- a word that is granted at once

// The check of a word inside its page, over a good map, by the privilege state's words. Other accesses are not asked for; where the page ends is tested before
// the map, so that one over two pages is soon on its own way.
fn grant_word(
    state: &mut [u32; STATE_WORDS],
    mem: &[u8],
    base: u32,
    addr: u32,
    size: u8,
    access: Access,
) -> Option<Grant>
    ensures { Grants state.old state.new (lent base mem.now) addr size access result }
{
    if size == 4 && addr % PAGE_SIZE <= PAGE_SIZE - 4 {
        if good_map(mem, base) {
            return system_words::access::grant_word(
                &mut state[SYSTEM..SYSTEM_END],
                mem,
                base,
                addr,
                access,
            );
        }
    }
    None
}

// A granted word, loaded or fetched: the cache, then memory. A grant or a place is taken apart where it is matched, since the compiler keeps one that is handed
// on whole as a single number of 64 bits.
fn read_granted(
    state: &mut [u32; STATE_WORDS],
    mem: &[u8],
    base: u32,
    access: Access,
    pa: u32,
    reads: u32,
) -> Answer
    requires { (is_read access ≡ true) × (map_good (lent base mem.now) ≡ true) }
    ensures { ReadsGranted state.old state.new (lent base mem.now) access (grant_at pa reads) result }
{
    let stall = ask(state, access, pa);
    let content = read_word(mem, base, pa);
    answer_of(content.ok_or(Fault::BusError), stall, reads)
}

// A granted word, stored: memory is lent to be written.
fn write_granted(
    state: &mut [u32; STATE_WORDS],
    mem: &mut [u8],
    base: u32,
    value: u32,
    pa: u32,
    reads: u32,
) -> Answer
    requires { map_good (lent base mem.old) ≡ true }
    ensures { WritesGranted state.old state.new (lent base mem.old) value (grant_at pa reads) result mem.new }
{
    let stall = ask(state, Access::Write, pa);
    let all = put_word(mem, base, pa, value);
    answer_of(all.then_some(0).ok_or(Fault::BusError), stall, reads)
}

// ---- an event

// The access of kinds 0 to 2: every byte is a kind, so nothing is refused here.
fn access_of(kind: u8) -> Access
    ensures { result ≡ access_kind kind }
{
    match kind {
        0 => Access::Read,
        1 => Access::Write,
        _ => Access::Fetch,
    }
}

// Any access: the check has one call, whatever the kind is.
fn access_any(state: &mut [u32; STATE_WORDS], mem: &mut [u8], base: u32, e: Event) -> Answer
    ensures { (length state.new ≡ length state.old) × Accesses state.old state.new (access_kind e.kind) (lent base mem.old) e.a e.size (stored_by e) result mem.new }
{
    let access = access_of(e.kind);
    let size = e.size as u32;
    let permit = check(state, mem, base, e.a, size, access);
    if e.kind == 1 {
        return write_permitted(state, mem, base, e.a, size, e.b, permit);
    }
    read_permitted(state, mem, base, e.a, size, access, permit)
}

// Kinds 0 to 2. A word that is granted at once is frequent: its answer never meets those of the other ways, which the compiler would keep in memory. So
// these have one call too: it makes them a part of this function.
pub(crate) fn access_event(
    state: &mut [u32; STATE_WORDS],
    mem: &mut [u8],
    base: u32,
    e: Event,
) -> Answer
    ensures { (length state.new ≡ length state.old) × Accesses state.old state.new (access_kind e.kind) (lent base mem.old) e.a e.size (stored_by e) result mem.new }
{
    let access = access_of(e.kind);
    if let Some(Grant { pa, reads }) = grant_word(state, mem, base, e.a, e.size, access) {
        if e.kind == 1 {
            return write_granted(state, mem, base, e.b, pa, reads);
        }
        return read_granted(state, mem, base, access, pa, reads);
    }
    access_any(state, mem, base, e)
}
