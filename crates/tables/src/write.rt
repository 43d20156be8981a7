// The writer: what it refuses, and the words of the tables, frame by frame.
ghost use Rattle.std.specs.Prelude.{◌≡◌, ◌+◌, ◌*◌, ◌<◌, ◌≤◌, ◌^◌, length, drop};
ghost use Rattle.memory.specs.Memory.{lent};
ghost use Rattle.tables.specs.Mapping.{mappings};
ghost use Rattle.tables.specs.Words.{put_words};
ghost use Rattle.tables.specs.Tables.{directories, table_for, level1, level2, tables_after, good_run, frames_for, answer_for, memory_after};

use crate::list::{List, TABLE_WORDS};
use crate::refusal::Refusal;
use memory::good_map;
use memory::span::put_word;

const PAGE_SIZE: u32 = 4096;

// No page below 2^20 has this directory: the definitions count from it, so that the first page starts a table.
const NO_DIRECTORY: u32 = 1024;

// The tables stand in the first `used` frames of the run, level 1 at `ptbr`.
#[derive(Clone, Copy)]
pub struct Tables {
    pub ptbr: u32,
    pub used: u32,
}

// Refusal 11 is given exactly where this is false.
#[tactic(auto, unfolding(crate::specs::Tables::good_run))]
fn good_run(mem: &[u8], base: u32, first: u32, frames: u32) -> bool
    ensures { result ≡ good_run (lent base mem.now) first frames }
{
    let end = (first as u64) + 4096 * (frames as u64);
    let map_end = (base as u64) + (mem.len() as u64);
    first % PAGE_SIZE == 0 && (frames == 0 || (first >= base && end <= map_end))
}

// Frames that the list needs: one for level 1, and one for each directory. This, `table_word` and `write_level2` go over the directories alike, and
// each does something else at a new one: an iterator over them would be longer than the three loops.
fn frames_for(vpns: &[u32]) -> u32
    requires { length vpns.now ≤ 512 }
    ensures { result ≡ frames_for vpns.now }
{
    let mut used: u32 = 1;
    let mut last = NO_DIRECTORY;
    for &vpn in vpns {
        let directory = vpn / TABLE_WORDS;
        if directory != last {
            used += 1;
        }
        last = directory;
    }
    used
}

// The level-1 word of directory `wanted`: its table and V, or 0.
fn table_word(vpns: &[u32], first: u32, wanted: u32) -> u32
    requires { first + 4096 * frames_for vpns.now < 2 ^ 32 }
    ensures { result ≡ table_for first wanted (directories vpns.now) }
{
    let mut frame = first;
    let mut last = NO_DIRECTORY;
    for &vpn in vpns {
        let directory = vpn / TABLE_WORDS;
        if directory != last {
            frame += PAGE_SIZE;
            if directory == wanted {
                return frame + 1;
            }
        }
        last = directory;
    }
    0
}

fn write_level1(mem: &mut [u8], base: u32, first: u32, vpns: &[u32])
    requires { first + 4096 * frames_for vpns.now < 2 ^ 32 }
    ensures { mem.new ≡ (put_words (lent base mem.old) first (level1 first (directories vpns.now))).bytes }
{
    for directory in 0..TABLE_WORDS {
        let word = table_word(vpns, first, directory);
        put_word(mem, base, first + directory * 4, word);
    }
}

// The table of one directory, whose first page is mapping `from`.
fn write_table(mem: &mut [u8], base: u32, frame: u32, directory: u32, list: List, from: usize)
    requires { (from ≤ length list.vpns.now) × (frame + 4096 < 2 ^ 32) × (directory < 2 ^ 22) }
    ensures { mem.new ≡ (put_words (lent base mem.old) frame (level2 directory (drop from (mappings list.entry.vpns.now list.entry.ppns.now list.entry.bits.now)))).bytes }
{
    let end = list.end_of(from, directory);
    for i in 0..TABLE_WORDS {
        let word = list.leaf_at(from, end, directory * TABLE_WORDS + i);
        put_word(mem, base, frame + i * 4, word);
    }
}

// A table for each directory, in the frames after the first. The index is the list's: a table goes on from there.
fn write_level2(mem: &mut [u8], base: u32, first: u32, list: List)
    requires { first + 4096 * frames_for list.vpns.now < 2 ^ 32 }
    ensures { mem.new ≡ (put_words (lent base mem.old) (first + 4096) (tables_after 1024 (mappings list.entry.vpns.now list.entry.ppns.now list.entry.bits.now))).bytes }
{
    let mut frame = first;
    let mut last = NO_DIRECTORY;
    let vpns = list.vpns;
    for k in 0..vpns.len() {
        let directory = vpns[k] / TABLE_WORDS;
        if directory != last {
            frame += PAGE_SIZE;
            write_table(mem, base, frame, directory, list, k);
        }
        last = directory;
    }
}

// Writes the tables of a list of mappings into the lowest of `frames` frames from `first` on. C lends the list as three slices.
#[tactic(auto, unfolding(crate::specs::Tables::answer_for, crate::specs::Tables::memory_after, crate::specs::Tables::by_answer))]
pub fn write_tables(
    mem: &mut [u8],
    base: u32,
    vpns: &[u32],
    ppns: &[u32],
    bits: &[u8],
    first: u32,
    frames: u32,
) -> Result<Tables, Refusal>
    ensures { (result ≡ answer_for (lent base mem.old) vpns.now ppns.now bits.now first frames) × (mem.new ≡ (memory_after (lent base mem.old) vpns.now ppns.now bits.now first frames).bytes) }
{
    if !good_map(mem, base) {
        return Err(Refusal::Map);
    }
    let list = List::new(vpns, ppns, bits)?;
    if !list.all_good() {
        return Err(Refusal::Leaf);
    }
    if !good_run(mem, base, first, frames) {
        return Err(Refusal::Run);
    }
    let used = frames_for(vpns);
    if frames < used {
        return Err(Refusal::Frames);
    }
    write_level1(mem, base, first, vpns);
    write_level2(mem, base, first, list);
    Ok(Tables { ptbr: first, used })
}
