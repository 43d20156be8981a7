// One mapping, and when a list of them is good: three slices, of which the elements at one index make a mapping.
ghost use Rattle.std.specs.Prelude.{◌≡◌};
ghost use Rattle.tables.specs.Mapping.{leaf_of, good_bits, good_mapping, ascending_from, good_list};

pub const MOST_MAPPINGS: usize = 512;

// The first page number that no mapping may have: the page starts at 0xFFFF0000.
pub const PAGES_END: u32 = 0xFFFF0;

const LEAF_R: u8 = 2;

const LEAF_W: u8 = 4;

const LEAF_RWX: u8 = 0x0E;

// A virtual page, the physical page that it leads to, and R, W, X and U as the leaf has them: 2, 4, 8 and 16.
#[derive(Drop)]
pub struct Mapping {
    pub vpn: u32,
    pub ppn: u32,
    pub bits: u8,
}

// Nothing but R, W, X and U, and so that a walk accepts the leaf.
fn good_bits(bits: u8) -> bool
    ensures { result ≡ good_bits bits }
{
    if bits % 2 != 0 || bits >= 32 {
        return false;
    }
    bits & LEAF_RWX != 0 && (bits & LEAF_W == 0 || bits & LEAF_R != 0)
}

impl Mapping {
    pub fn good(self) -> bool
        ensures { result ≡ good_mapping self }
    {
        if self.vpn >= PAGES_END || self.ppn >= PAGES_END {
            return false;
        }
        good_bits(self.bits)
    }

    // The leaf's word: frame, listed bits and V.
    pub fn leaf(self) -> u32
        ensures { result ≡ leaf_of self }
    {
        (self.ppn << 12) + (self.bits as u32) + 1
    }
}

// Each page above the one before it.
fn ascending(vpns: &[u32]) -> bool
    ensures { result ≡ ascending_from 0 vpns.now }
{
    vpns.is_sorted_by(|page, next| *page < *next)
}

// Refusal 9 is given exactly where this is false. The list is not yet known to be one: so its slices come apart.
#[tactic(auto, unfolding(crate::specs::Mapping::good_list))]
pub fn good_list(vpns: &[u32], ppns: &[u32], bits: &[u8]) -> bool
    ensures { result ≡ good_list vpns.now ppns.now bits.now }
{
    let count = vpns.len();
    count <= MOST_MAPPINGS && ppns.len() == count && bits.len() == count && ascending(vpns)
}
