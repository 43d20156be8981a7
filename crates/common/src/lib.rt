// What every crate shares: numbers made of bytes, high byte first, and the numbered refusals. The shared definitions and laws
// are in specs/.
#![tactic(auto)]

ghost use Rattle.std.specs.Prelude.{◌≡◌, [], ◌∷◌};
ghost use Rattle.common.specs.Bytes.{big_endian};
ghost use Rattle.common.specs.Refusal.{refusal_number};

// These two have other numbers of bytes, and an integer type each: one function would be a trait for two calls.
pub fn be_half(a: u8, b: u8) -> u16
    ensures { result ≡ big_endian (a ∷ b ∷ []) }
{
    u16::from_be_bytes([a, b])
}

pub fn be_word(a: u8, b: u8, c: u8, d: u8) -> u32
    ensures { result ≡ big_endian (a ∷ b ∷ c ∷ d ∷ []) }
{
    u32::from_be_bytes([a, b, c, d])
}

// Why a call was refused. A refused call has changed nothing.
#[derive(Clone, Copy, PartialEq, Eq, Debug)]
pub enum Refusal {
    Size = 1,
    Map = 2,
    Register = 3,
    Header = 4,
    Section = 5,
    Event = 6,
}

impl Refusal {
    #[tactic(auto, unfolding(crate::specs::Refusal::refusal_number))]
    pub fn number(self) -> u32
        ensures { result ≡ refusal_number self }
    {
        self as u32
    }
}
