// A line before it is written: text in a buffer of its own. As a writer of text it costs less than a slice, which is one of bytes. `mmu_replay` has the
// same: a library for the two, with promises of its own, would be longer.
use std::fmt;

// More bytes than a line has.
const ROOM: usize = 128;

#[derive(Drop)]
pub struct Line {
    bytes: [u8; ROOM],
    filled: usize,
}

impl Line {
    pub fn new() -> Self {
        Self {
            bytes: [0; ROOM],
            filled: 0,
        }
    }

    pub fn text(&self) -> &[u8] {
        self.bytes.get(..self.filled).unwrap_or(&self.bytes)
    }
}

impl fmt::Write for Line {
    // What has no room is left out, so that no write fails.
    fn write_str(&mut self, s: &str) -> fmt::Result {
        let start = self.filled.min(ROOM);
        let room = &mut self.bytes[start..];
        let count = room.len().min(s.len());
        room[..count].copy_from_slice(&s.as_bytes()[..count]);
        self.filled = start + count;
        Ok(())
    }
}
