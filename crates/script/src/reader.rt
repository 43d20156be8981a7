// A script reader: it holds the lent script and its place. Document 01: "A small script reader holds the lent script and its
// place." It is made, read and stepped by thin functions; an event is decoded on the slice and the number, by `event_at`.
ghost use Rattle.std.specs.Prelude.{◌≡◌, ◌+◌, ◌%◌, ◌^◌};
ghost use Rattle.script.specs.Event.{event_at};

use crate::{EVENT_SIZE, Event, event_at};

#[derive(Drop)]
pub struct Reader<'a> {
    pub script: &'a [u8],
    pub at: usize,
}

impl<'a> Reader<'a> {
    pub fn new(script: &'a [u8], at: usize) -> Reader<'a>
        ensures { (result.script ≡ script.entry) × (result.at ≡ at) }
    {
        Reader { script, at }
    }

    // The event at the reader's place.
    pub fn event(self) -> Event
        ensures { result ≡ event_at self.entry.script.now self.entry.at }
    {
        event_at(self.script, self.at)
    }

    // The reader behind that event. The place wraps: a script is far shorter.
    pub fn next(self) -> Reader<'a>
        ensures { (result.script ≡ self.entry.script) × (result.at ≡ (self.entry.at + 12) % 2 ^ 64) }
    {
        Reader {
            at: self.at.wrapping_add(EVENT_SIZE),
            ..self
        }
    }
}

// One event of a lent script, by a reader: the way for callers that have the slice and a number.
pub fn event_of(script: &[u8], at: usize) -> Event
    ensures { result ≡ event_at script.now at }
{
    Reader::new(script, at).event()
}
