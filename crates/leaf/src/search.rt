// The search in a leaf: a key, a vacant slot.
ghost use Rattle.std.specs.Prelude.{◌≡◌, ◌≤◌, ◌<◌, length};
ghost use Rattle.words.specs.Below.{count_below};
ghost use Rattle.header.specs.Header.{bits_of, fingerprint_of};
ghost use Rattle.leaf.specs.Leaf.{leaf_in, occ_in};
ghost use Rattle.leaf.specs.Search.{holds_key, slot_of, lowest_vacant};

use crate::page::Page;
use crate::place::Leaf;
use header::slot::Slot;
use header::{Header, fingerprint_of};

pub fn key_at(leaf: &Page, s: Slot) -> u64
    ensures { result ≡ (leaf_in leaf.now).key s }
{
    words::word_at(leaf.bytes(), Leaf::key_place(s))
}

pub fn value_at(leaf: &Page, s: Slot) -> u64
    ensures { result ≡ (leaf_in leaf.now).val s }
{
    words::word_at(leaf.bytes(), Leaf::value_place(s))
}

// The active sibling.
pub fn next_of(leaf: &Page) -> u64
    ensures { result ≡ (leaf_in leaf.now).next }
{
    if leaf.head().alt() == 0 {
        words::word_at(leaf.bytes(), Leaf::SIBLING0)
    } else {
        words::word_at(leaf.bytes(), Leaf::SIBLING1)
    }
}

// Whether slot s is occupied and holds the key, whose fingerprint is fp. The key is read only where the fingerprint is right.
fn holds(leaf: &Page, key: u64, fp: u8, s: Slot) -> bool
    requires { fp ≡ fingerprint_of key }
    ensures { result ≡ holds_key (leaf_in leaf.now) key s }
{
    leaf.occupied(s) && leaf.head().fingerprint(s) == fp && key_at(leaf, s) == key
}

// The slot that holds a key: the lowest, where an unsound leaf has several.
pub fn find_slot(leaf: &Page, key: u64) -> Option<Slot>
    ensures { result ≡ slot_of (leaf_in leaf.now) key }
{
    let fp = fingerprint_of(key);
    for n in 0..Leaf::SLOTS {
        let s = Slot::new(n);
        if holds(leaf, key, fp, s) {
            return Some(s);
        }
    }
    None
}

pub fn lowest_vacant(head: Header) -> Option<Slot>
    ensures { result ≡ lowest_vacant (occ_in (bits_of head)) 14 }
{
    for n in 0..Leaf::SLOTS {
        let s = Slot::new(n);
        if !head.occupied(s) {
            return Some(s);
        }
    }
    None
}

// How many slots are occupied.
pub fn entries(head: Header) -> u64
    ensures { result ≡ count_below (occ_in (bits_of head)) 14 }
{
    let mut n = 0;
    for s in 0..Leaf::SLOTS {
        if head.occupied(Slot::new(s)) {
            n += 1;
        }
    }
    n
}
