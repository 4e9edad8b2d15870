// Places within a leaf: "constants and functions of the leaf's own kind". Bytes for what reads a leaf, words and lines for
// the steps of a list, which name them.
ghost use Rattle.std.specs.Prelude.{◌≡◌, cond, ◌+◌, ◌*◌, ◌/◌, ◌≤◌, ◌<◌, ltb};

use header::slot::Slot;

#[derive(Clone, Copy)]
pub struct Leaf;

impl Leaf {
    pub const SLOTS: usize = 14;

    pub const BYTES: usize = 256;

    pub const WORDS: u64 = 32;

    pub const LINES: u64 = 4;

    pub const SIBLING0: usize = 240;

    pub const SIBLING1: usize = 248;

    pub const SIBLING_LINE: u64 = 3;

    pub fn key_place(s: Slot) -> usize
        ensures { result ≡ 16 + 16 * s }
    {
        16 + 16 * s.number()
    }

    pub fn value_place(s: Slot) -> usize
        ensures { result ≡ 24 + 16 * s }
    {
        24 + 16 * s.number()
    }

    pub fn key_word(s: Slot) -> u64
        ensures { result ≡ 2 + 2 * s }
    {
        (Leaf::key_place(s) / 8) as u64
    }

    pub fn value_word(s: Slot) -> u64
        ensures { result ≡ 3 + 2 * s }
    {
        (Leaf::value_place(s) / 8) as u64
    }

    // The word of sibling 0 or 1.
    pub fn sibling_word(a: u64) -> u64
        requires { a < 2 }
        ensures { result ≡ 30 + a }
    {
        (Leaf::SIBLING0 / 8) as u64 + a
    }

    // The line of slot s, of the leaf's four.
    pub fn line(s: Slot) -> u64
        ensures { result ≡ (16 + 16 * s) / 64 }
    {
        (Leaf::key_place(s) / 64) as u64
    }

    // The last slot in the line of slot s, which is past line 0.
    pub fn last_beside(s: Slot) -> Slot
        requires { 3 ≤ s }
        ensures { (result ≡ cond (ltb s 7) 6 (cond (ltb s 11) 10 13)) × (s ≤ result) × (result ≤ s + 3) }
    {
        match s.number() {
            3..=6 => Slot::new(6),
            7..=10 => Slot::new(10),
            _ => Slot::new(13),
        }
    }
}
