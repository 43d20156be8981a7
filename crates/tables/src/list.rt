// The list of mappings: three slices, of which the elements at one index make a mapping.
ghost use Rattle.std.specs.Prelude.{◌≡◌, true, false, ◌/◌, ◌<◌, ◌≤◌, length, get_or, drop, MatchResult};
ghost use Rattle.tables.specs.declared.refusal.Refusal.TheVariants.{Order};
ghost use Rattle.tables.specs.Mapping.{mapping, mappings, good_list, all_good, leaf_at};

use crate::mapping::{Mapping, good_list};
use crate::refusal::Refusal;

// Words of a table, and so pages of a directory: the pages whose level-1 word is the same.
pub(crate) const TABLE_WORDS: u32 = 1024;

// Only `new` makes one: no list that is refused is asked for its mappings.
#[derive(Clone, Copy)]
pub(crate) struct List<'a> {
    pub(crate) vpns: &'a [u32],
    ppns: &'a [u32],
    bits: &'a [u8],
    ghost good: { good_list vpns.now ppns.now bits.now ≡ true },
}

impl<'a> List<'a> {
    pub(crate) fn new(vpns: &'a [u32], ppns: &'a [u32], bits: &'a [u8]) -> Result<List<'a>, Refusal>
        ensures { MatchResult result (λ l. (l.vpns.now ≡ vpns.now) × (l.ppns.now ≡ ppns.now) × (l.bits.now ≡ bits.now)) (λ r. (r ≡ Order) × (good_list vpns.now ppns.now bits.now ≡ false)) }
    {
        if !good_list(vpns, ppns, bits) {
            return Err(Refusal::Order);
        }
        Ok(List { vpns, ppns, bits })
    }

    pub(crate) fn at(self, k: usize) -> Mapping
        requires { k < length self.vpns.now }
        ensures { result ≡ mapping (get_or self.entry.vpns.now k 0) (get_or self.entry.ppns.now k 0) (get_or self.entry.bits.now k 0) }
    {
        Mapping {
            vpn: self.vpns[k],
            ppn: self.ppns[k],
            bits: self.bits[k],
        }
    }

    // Refusal 10 is given exactly where this is false. The loop goes over the index that the three slices share.
    pub(crate) fn all_good(self) -> bool
        ensures { result ≡ all_good (mappings self.entry.vpns.now self.entry.ppns.now self.entry.bits.now) }
    {
        for k in 0..self.vpns.len() {
            if !self.at(k).good() {
                return false;
            }
        }
        true
    }

    // Where the pages of a directory end, looked for from mapping `from` on: behind it stand higher ones alone.
    pub(crate) fn end_of(self, from: usize, directory: u32) -> usize
        requires { from ≤ length self.vpns.now }
        ensures in_bounds { (from ≤ result) × (result ≤ length self.entry.vpns.now) }
        ensures next { result < length self.entry.vpns.now → directory < get_or self.entry.vpns.now result 0 / 1024 }
    {
        match self.vpns[from..]
            .iter()
            .position(|&vpn| vpn / TABLE_WORDS > directory)
        {
            Some(k) => from + k,
            None => self.vpns.len(),
        }
    }

    // The leaf of a page, looked for from mapping `from` on, or 0. Of a page's own table all pages stand below `end`, where it ends: so the search is
    // over them alone, and one for each word of a table with few pages is short.
    pub(crate) fn leaf_at(self, from: usize, end: usize, page: u32) -> u32
        requires range { (from ≤ end) × (end ≤ length self.vpns.now) }
        requires past { end < length self.vpns.now → page < get_or self.vpns.now end 0 }
        ensures { result ≡ leaf_at page (drop from (mappings self.entry.vpns.now self.entry.ppns.now self.entry.bits.now)) }
    {
        match self.vpns[from..end].binary_search(&page) {
            Ok(k) => self.at(from + k).leaf(),
            Err(_) => 0,
        }
    }
}
