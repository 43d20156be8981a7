// The lines of a state that are not those of the state before. Lines are held against each other by their number: every state has as many.
ghost use Rattle.std.specs.Prelude.{◌≤◌, length};

use crate::buffer::Buffer;
use crate::state::LINES;

// Behind the newline of the line at `at`; where none comes, the text's end.
fn line_end(text: &[u8], at: usize) -> usize
    requires { at ≤ length text.now }
    ensures { (at ≤ result) × (result ≤ length text.now) }
{
    match text[at..].iter().position(|&byte| byte == b'\n') {
        Some(k) => at + k + 1,
        None => text.len(),
    }
}

// A text without lines, as before the first event, has none that is the same: then all are put. Each text has a place of its own, which the edit
// `one_place_for_both` takes away.
pub fn put_changes(out: &mut Buffer, text: &[u8], before: &[u8]) {
    let mut start: usize = 0;
    let mut old_start: usize = 0;
    for _ in 0..LINES {
        let end = line_end(text, start);
        let old_end = line_end(before, old_start);
        let line = &text[start..end];
        if line != &before[old_start..old_end] {
            out.push(line);
        }
        start = end;
        old_start = old_end;
    }
}
