// The sweep of an external write over a bank's tags, which their owner lends, and how many lines it visits.
ghost use Rattle.std.specs.Prelude.{◌≡◌, length};
ghost use Rattle.cache.specs.Bank.{line_of, line_stop, visited, swept_tags};

use crate::{INVALID, LINE_SHIFT, LINES, index_of};

// How many lines a sweep visits, from the one that holds `pa` while the line starts below `end`: no more than a bank has, since
// after those every index is empty.
pub(crate) fn visits(pa: u32, end: u32) -> u32
    ensures { result ≡ visited (line_of pa) (line_stop end) }
{
    let first = pa >> LINE_SHIFT;
    let stop = end.div_ceil(1 << LINE_SHIFT);
    stop.saturating_sub(first).min(LINES)
}

// Drops the index of each line that it visits; the next line has the next index. The hardware's snoop carries the index only, so
// a conflicting tag at the same index goes too. The turns are counted in a word, as `visits` has them: the compiler then drops eight
// tags a turn where no index wraps.
pub(crate) fn sweep(tags: &mut [u32], pa: u32, end: u32)
    requires { length tags.old ≡ 256 }
    ensures { tags.new ≡ swept_tags tags.old (line_of pa) (line_stop end) }
{
    let first = index_of(pa);
    for n in 0..visits(pa, end) {
        tags[(first + n as usize) % LINES as usize] = INVALID;
    }
}
