// FNV-1a over 32 bits: a short witness of a large state, for answers that are compared as text.
#![tactic(auto)]

ghost use Rattle.std.specs.Prelude.{◌≡◌};
ghost use Rattle.digest.specs.Digest.{fnv_byte, fnv_word, fnv_words};

// The digest of nothing.
pub const FNV_START: u32 = 0x811C_9DC5;

const FNV_PRIME: u32 = 0x0100_0193;

#[tactic(auto, unfolding(crate::specs::Digest::fnv_byte))]
pub fn fnv_byte(h: u32, b: u8) -> u32
    ensures { result ≡ fnv_byte h b }
{
    (h ^ u32::from(b)).wrapping_mul(FNV_PRIME)
}

// A word as its four bytes, highest first.
#[tactic(auto, using(crate::proofs::Steps::bytes_next, crate::proofs::Steps::bytes_done))]
pub fn fnv_word(h: u32, w: u32) -> u32
    ensures { result ≡ fnv_word h w }
{
    let mut sum = h;
    for b in w.to_be_bytes() {
        sum = fnv_byte(sum, b);
    }
    sum
}

#[tactic(auto, using(crate::proofs::Steps::words_next, crate::proofs::Steps::words_done))]
pub fn fnv_words(h: u32, words: &[u32]) -> u32
    ensures { result ≡ fnv_words h words.now }
{
    let mut sum = h;
    for w in words {
        sum = fnv_word(sum, *w);
    }
    sum
}
