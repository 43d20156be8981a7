// Text in a lent buffer: bytes, hexadecimal and decimal numbers, each written at a place, with the next place as the answer.
//
// A byte that has no room is left out and the place stays, so nothing is asked of the caller. Buffer and place are no struct: the
// theorems of `contracts` speak of these functions, and a contract says what both become with no step through a lent field.
#![tactic(auto)]

ghost use Rattle.std.specs.Prelude.{◌≡◌, [], ◌∷◌};
ghost use Rattle.text.specs.Text.{written, hex_digit, hex_of, decimal_of};

#[tactic(auto, unfolding(crate::specs::Text::written, crate::specs::Text::put))]
pub fn put_byte(out: &mut [u8], at: usize, b: u8) -> usize
    ensures { (out.new, result) ≡ written (out.old, at) (b ∷ []) }
{
    if at < out.len() {
        out[at] = b;
        return at + 1;
    }
    at
}

#[tactic(auto, using(crate::specs::Text::Laws::written_next, crate::specs::Text::Laws::written_done))]
pub fn put_bytes(out: &mut [u8], at: usize, text: &[u8]) -> usize
    ensures { (out.new, result) ≡ written (out.old, at) text.now }
{
    let mut place = at;
    for b in text {
        place = put_byte(out, place, *b);
    }
    place
}

// Digit k of `v` in hexadecimal, counted from the lowest; a word has eight.
#[tactic(auto, using(crate::specs::Text::Laws::hex_high), unfolding(crate::specs::Text::hex_digit))]
fn hex_digit(v: u32, k: u32) -> u8
    ensures { result ≡ hex_digit v k }
{
    if k >= 8 {
        return b'0';
    }
    let n = ((v >> (4 * k)) % 16) as u8;
    if n < 10 { b'0' + n } else { b'A' - 10 + n }
}

// The lowest `digits` hexadecimal digits of `v`, upper case, the highest of them first.
#[tactic(auto, using(crate::specs::Text::Laws::hex_next, crate::specs::Text::Laws::hex_done))]
pub fn put_hex(out: &mut [u8], at: usize, v: u32, digits: u32) -> usize
    ensures { (out.new, result) ≡ written (out.old, at) (hex_of digits v) }
{
    let mut place = at;
    for k in (0..digits).rev() {
        place = put_byte(out, place, hex_digit(v, k));
    }
    place
}

// The digits of a number in decimal, at the end of `bytes`. Twenty hold any number of 64 bits. They are made from the lowest up.
fn decimal_digits(bytes: &mut [u8; 20], v: u64) -> &[u8]
    ensures { result.now ≡ decimal_of v }
{
    let mut rest = v;
    for first in (0..20).rev() {
        bytes[first] = b'0' + (rest % 10) as u8;
        if rest < 10 {
            return &bytes[first..];
        }
        rest /= 10;
    }
    bytes
}

// A number in decimal with no leading zeros.
pub fn put_decimal(out: &mut [u8], at: usize, v: u64) -> usize
    ensures { (out.new, result) ≡ written (out.old, at) (decimal_of v) }
{
    put_bytes(out, at, decimal_digits(&mut [0; 20], v))
}
