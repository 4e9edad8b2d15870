// Eight bytes of a slice, read and stored as one little-endian word.
#![tactic(auto)]

ghost use Rattle.std.specs.Prelude.{◌≡◌, ◌+◌, ◌≤◌, ◌<◌, length};
ghost use Rattle.words.specs.Words.{pair_at, four_at, word_at, store_at};

pub const LARGEST: u64 = u64::MAX;

fn pair_at(bytes: &[u8], place: usize) -> u64
    requires { place + 2 ≤ length bytes.now }
    ensures { (result ≡ pair_at bytes.now place) × (result < 65536) }
{
    u64::from(bytes[place]) + 256 * u64::from(bytes[place + 1])
}

fn four_at(bytes: &[u8], place: usize) -> u64
    requires { place + 4 ≤ length bytes.now }
    ensures { (result ≡ four_at bytes.now place) × (result < 4294967296) }
{
    pair_at(bytes, place) + 65536 * pair_at(bytes, place + 2)
}

// Made of halves of halves: each sum is then of two parts that share no bit, and the compiler makes one load of all eight.
#[tactic(auto, unfolding(crate::specs::Words::word_at))]
pub fn word_at(bytes: &[u8], place: usize) -> u64
    requires { place + 8 ≤ length bytes.now }
    ensures { result ≡ word_at bytes.now place }
{
    four_at(bytes, place) + 4294967296 * four_at(bytes, place + 4)
}

pub fn set_word(bytes: &mut [u8], place: usize, value: u64)
    requires { place + 8 ≤ length bytes.old }
    ensures { bytes.new ≡ store_at bytes.old place value }
{
    bytes[place] = (value % 256) as u8;
    bytes[place + 1] = (value / 256 % 256) as u8;
    bytes[place + 2] = (value / 65536 % 256) as u8;
    bytes[place + 3] = (value / 16777216 % 256) as u8;
    bytes[place + 4] = (value / 4294967296 % 256) as u8;
    bytes[place + 5] = (value / 1099511627776 % 256) as u8;
    bytes[place + 6] = (value / 281474976710656 % 256) as u8;
    bytes[place + 7] = (value / 72057594037927936 % 256) as u8;
}
