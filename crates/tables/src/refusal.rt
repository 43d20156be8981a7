// Why the writer refused. A refused call has written nothing.
ghost use Rattle.std.specs.Prelude.{◌≡◌};
ghost use Rattle.tables.specs.Refusal.{refusal_number};

#[derive(Clone, Copy)]
pub enum Refusal {
    Map = 2,
    // Over 512, out of order or with a repeat, or slices of other lengths.
    Order = 9,
    // A leaf that a walk would not accept, or a page at or above 0xFFFF0000.
    Leaf = 10,
    // A run that is unaligned or has a byte outside the map.
    Run = 11,
    // Too few frames.
    Frames = 12,
}

impl Refusal {
    #[tactic(auto, unfolding(crate::specs::Refusal::refusal_number))]
    pub fn number(self) -> u32
        ensures { result ≡ refusal_number self }
    {
        self as u32
    }
}
