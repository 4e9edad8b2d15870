// A field read as a number: decimal, with no sign and no leading zero but 0 itself, at most 2^64 - 1.
#![tactic(auto)]

ghost use Rattle.std.specs.Prelude.{◌≡◌, Some};
ghost use Rattle.number.specs.Reading.{digit_of, grown, pushed, spelled_by};

fn digit(byte: u8) -> Option<u64>
    ensures { result ≡ digit_of byte }
{
    match byte {
        b'0'..=b'9' => Some(u64::from(byte - b'0')),
        _ => None,
    }
}

// `n` with a digit behind it. A 0 takes none: no leading zero.
fn grow(n: u64, digit: u64) -> Option<u64>
    ensures { result ≡ grown n digit }
{
    if n == 0 {
        return None;
    }
    n.checked_mul(10)?.checked_add(digit)
}

// The number read so far with one more byte of the field.
fn push(n: u64, byte: u8) -> Option<u64>
    ensures { result ≡ pushed (Some n) byte }
{
    grow(n, digit(byte)?)
}

// The number that a whole field spells.
#[tactic(auto, using(crate::proofs::ReadingLaws::reading))]
pub fn spelled_by(field: &[u8]) -> Option<u64>
    ensures { result ≡ spelled_by field.now }
{
    let (first, rest) = field.split_first()?;
    let mut n = digit(*first)?;
    for byte in rest {
        n = push(n, *byte)?;
    }
    Some(n)
}
