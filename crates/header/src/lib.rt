// The header of a leaf as a value: words 0 and 1. Bit s says that slot s is occupied, bit 14 is the lock, bit 15 is alt, and from
// bit 16 on stand the fingerprints of the 14 slots.
#![tactic(auto)]

pub mod bits;
pub mod slot;

ghost use Rattle.std.specs.Prelude.{◌≡◌, ◌+◌, ◌≤◌, ◌<◌, length};
ghost use Rattle.words.specs.Below.{FirstBelow};
ghost use Rattle.words.specs.Words.{word_at};
ghost use Rattle.header.specs.Header.{head_at, bits_of, is_occupied, fingerprint_in, is_locked, alt_in};
ghost use Rattle.header.specs.Header.{marked, cleared, flipped, fingerprint_of};

use crate::bits::{get, lowest_one, replace};
use crate::slot::Slot;

#[derive(Clone, Copy)]
pub struct Header {
    pub low: u64,
    pub high: u64,
}

impl Header {
    #[tactic(auto, unfolding(crate::specs::Header::head_at))]
    pub fn read(bytes: &[u8], place: usize) -> Header
        requires { place + 16 ≤ length bytes.now }
        ensures { bits_of result ≡ head_at bytes.now place }
    {
        Header {
            low: words::word_at(bytes, place),
            high: words::word_at(bytes, place + 8),
        }
    }

    #[tactic(auto, using(crate::proofs::HeaderCode::occupied_low))]
    pub fn occupied(self, s: Slot) -> bool
        ensures { result ≡ is_occupied (bits_of self) s }
    {
        get(self.low, s.number(), 1) == 1
    }

    // The lowest occupied slot.
    #[tactic(auto, using(crate::proofs::HeaderCode::none_taken))]
    pub fn first_taken(self) -> Option<Slot>
        ensures { FirstBelow (is_occupied (bits_of self)) 14 result }
    {
        let s = lowest_one(self.low)?;
        if s < 14 { Some(Slot::new(s)) } else { None }
    }

    #[tactic(auto, using(crate::proofs::HeaderCode::fingerprint_low, crate::proofs::HeaderCode::fingerprint_high))]
    pub fn fingerprint(self, s: Slot) -> u8
        ensures { result ≡ fingerprint_in (bits_of self) s }
    {
        let s = s.number();
        if s < 6 {
            (get(self.low, 16 + 8 * s, 8) % 256) as u8
        } else {
            (get(self.high, 8 * s - 48, 8) % 256) as u8
        }
    }

    #[tactic(auto, using(crate::proofs::HeaderCode::locked_low))]
    pub fn locked(self) -> bool
        ensures { result ≡ is_locked (bits_of self) }
    {
        get(self.low, 14, 1) == 1
    }

    // Which sibling is active, 0 or 1.
    #[tactic(auto, using(crate::proofs::HeaderCode::alt_low))]
    pub fn alt(self) -> u64
        ensures { result ≡ alt_in (bits_of self) }
    {
        get(self.low, 15, 1)
    }

    #[tactic(auto, using(crate::proofs::HeaderCode::marked_low, crate::proofs::HeaderCode::marked_high))]
    pub fn mark(self, s: Slot, fp: u8) -> Header
        ensures { bits_of result ≡ marked (bits_of self) s fp }
    {
        let s = s.number();
        let bits = replace(self.low, s, 1, 1);
        if s < 6 {
            Header {
                low: replace(bits, 16 + 8 * s, 8, fp as u64),
                high: self.high,
            }
        } else {
            Header {
                low: bits,
                high: replace(self.high, 8 * s - 48, 8, fp as u64),
            }
        }
    }

    #[tactic(auto, using(crate::proofs::HeaderCode::cleared_low))]
    pub fn clear(self, s: Slot) -> Header
        ensures { bits_of result ≡ cleared (bits_of self) s }
    {
        Header {
            low: replace(self.low, s.number(), 1, 0),
            high: self.high,
        }
    }

    #[tactic(auto, using(crate::proofs::HeaderCode::flipped_low, crate::proofs::FieldLaws::field_lt))]
    pub fn flip_alt(self) -> Header
        ensures { bits_of result ≡ flipped (bits_of self) }
    {
        Header {
            low: replace(self.low, 15, 1, 1 - get(self.low, 15, 1)),
            high: self.high,
        }
    }
}

// The fingerprint of a key: the exclusive-or of its eight bytes.
#[tactic(auto, using(crate::proofs::HeaderCode::mix_start, crate::proofs::HeaderCode::mix_step, crate::proofs::HeaderCode::mix_end))]
pub fn fingerprint_of(key: u64) -> u8
    ensures { result ≡ fingerprint_of key }
{
    let mut rest = key;
    let mut mix: u8 = 0;
    for _ in 0..8usize {
        mix = mix ^ ((rest % 256) as u8);
        rest = rest / 256;
    }
    mix
}

// The fingerprint of the key at a place, mixed from its bytes where they stand: the compiler takes all eight at once.
pub fn fingerprint_at(bytes: &[u8], place: usize) -> u8
    requires { place + 8 ≤ length bytes.now }
    ensures { result ≡ fingerprint_of (word_at bytes.now place) }
{
    let mut mix: u8 = 0;
    for i in 0..8usize {
        mix = mix ^ bytes[place + i];
    }
    mix
}
