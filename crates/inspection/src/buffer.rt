// Text in a buffer of its own: a library has no heap. What has no room is left out, so that no write fails.
//
// `text` puts the numbers right into the bytes, and no `Display` stands for them: a state has some 140, and by `Display` a listing took nearly twice
// its time.
use text::{put_byte, put_decimal, put_hex};

// More bytes than an event's line and the seven lines of a state ever have: 54, and 930 with a victim of two digits.
const ROOM: usize = 1024;

#[derive(Clone, Copy)]
pub struct Buffer {
    pub bytes: [u8; ROOM],
    // How many of the bytes are text.
    pub filled: usize,
}

impl Buffer {
    pub fn new() -> Self {
        Self {
            bytes: [0; ROOM],
            filled: 0,
        }
    }

    pub fn text(&self) -> &[u8] {
        self.bytes.get(..self.filled).unwrap_or(&self.bytes)
    }

    pub fn push(&mut self, text: &[u8]) {
        let start = self.filled.min(ROOM);
        let room = &mut self.bytes[start..];
        let count = room.len().min(text.len());
        room[..count].copy_from_slice(&text[..count]);
        self.filled = start + count;
    }

    // A number in hexadecimal behind the byte that parts it from what is before.
    pub fn push_hex(&mut self, before: u8, v: u32, digits: u32) {
        let next = put_byte(&mut self.bytes, self.filled, before);
        self.filled = put_hex(&mut self.bytes, next, v, digits);
    }

    // Words, each behind a blank.
    pub fn push_words(&mut self, words: &[u32]) {
        for word in words {
            self.push_hex(b' ', *word, 8);
        }
    }

    // A number in decimal behind a blank.
    pub fn push_decimal(&mut self, v: u64) {
        let next = put_byte(&mut self.bytes, self.filled, b' ');
        self.filled = put_decimal(&mut self.bytes, next, v);
    }
}
