// One pass over a leaf's slots tells all that a walk of the chain asks of it. Per slot only numbers grow, and keys are compared
// with each other only where a fingerprint comes twice: equal keys have equal fingerprints.
ghost use Rattle.std.specs.Prelude.{◌≡◌, ℕ, false, cond, ◌+◌, ◌%◌, ◌≤◌, ◌<◌, min, max, eqb, length, get_or, set};
ghost use Rattle.header.specs.Header.{fingerprint_of};
ghost use Rattle.leaf.specs.Leaf.{leaf_in};
ghost use Rattle.leaf.specs.Tally.{Tells, shares, twin_at, twins};
ghost use Rattle.leaf.specs.TallySteps.{noted, passed, Few, Hits, TellsTo, Stamped};

use crate::page::Page;
use crate::place::Leaf;
use crate::search::key_at;
use header::fingerprint_at;
use header::slot::Slot;
use words::LARGEST;

// How many slots are occupied, and have a wrong fingerprint; the smallest key and the largest; and of each slot a bit, whether its
// fingerprint had come before, that of the last slot lowest.
#[derive(Clone, Copy)]
pub struct Tally {
    pub entries: u64,
    pub wrong: u64,
    pub least: u64,
    pub most: u64,
    pub hits: u64,
}

fn print_at(leaf: &Page, s: Slot) -> u8
    ensures { result ≡ (leaf_in leaf.now).fp s }
{
    leaf.bytes()[2 + s.number()]
}

// The fingerprint that the key of slot s has, whatever stands in the header.
pub fn own_print(leaf: &Page, s: Slot) -> u8
    ensures { result ≡ fingerprint_of ((leaf_in leaf.now).key s) }
{
    fingerprint_at(leaf.bytes(), Leaf::key_place(s))
}

// Stamps a fingerprint with the leaf's number; 1 where it bore it already.
fn stamp(stamps: &mut [u8], print: u8, number: u8) -> u64
    requires { 256 ≤ length stamps.old }
    ensures { (stamps.new ≡ set stamps.old print number)
        × (result ≡ cond (eqb (get_or stamps.old print 0) number) 1 0) × (result ≤ 1) }
{
    let i = print as usize;
    let old = stamps[i];
    stamps[i] = number;
    u64::from(old == number)
}

// The tally with one more occupied slot, whose key has the fingerprint `own`.
fn note(t: Tally, print: u8, own: u8, key: u64, hit: u64) -> Tally
    requires { (Few t) × (hit ≤ 1) × (own ≡ fingerprint_of key) }
    ensures { result ≡ noted print key hit t }
{
    Tally {
        entries: t.entries + 1,
        wrong: t.wrong + u64::from(print != own),
        least: t.least.min(key),
        most: t.most.max(key),
        hits: 2 * t.hits + hit,
    }
}

// The tally with one more vacant slot.
fn pass_over(t: Tally) -> Tally
    requires { t.hits < 16384 }
    ensures { result ≡ passed t }
{
    Tally {
        hits: 2 * t.hits,
        ..t
    }
}

// One turn of the pass.
fn slot(leaf: &Page, s: Slot, stamps: &mut [u8], number: u8, t: Tally) -> Tally
    requires { (256 ≤ length stamps.old) × TellsTo (leaf_in leaf.now) s t × Stamped (leaf_in leaf.now) number s stamps.old }
    ensures { TellsTo (leaf_in leaf.now) (s + 1) result
        × Stamped (leaf_in leaf.now) number (s + 1) stamps.new }
{
    if leaf.occupied(s) {
        let own = own_print(leaf, s);
        let key = key_at(leaf, s);
        let print = print_at(leaf, s);
        let hit = stamp(stamps, print, number);
        return note(t, print, own, key, hit);
    }
    pass_over(t)
}

// The whole pass. The stamps may hold anything: a stamp of an earlier leaf with this number costs a comparison, and no more.
pub fn tally_of(leaf: &Page, stamps: &mut [u8], number: u8) -> Tally
    requires { 256 ≤ length stamps.old }
    ensures { Tells (leaf_in leaf.now) result × Hits (leaf_in leaf.now) 14 result.hits
        × (length stamps.new ≡ length stamps.old) }
{
    let mut t = Tally {
        entries: 0,
        wrong: 0,
        least: LARGEST,
        most: 0,
        hits: 0,
    };
    for s in 0..Leaf::SLOTS {
        t = slot(leaf, Slot::new(s), stamps, number, t);
    }
    t
}

// Whether slot t is occupied and has the fingerprint and the key told, which are those of another slot.
fn has_both(leaf: &Page, print: u8, key: u64, t: Slot) -> bool
    ensures { (s : ℕ) → print ≡ (leaf_in leaf.now).fp s → key ≡ (leaf_in leaf.now).key s
        → result ≡ shares (leaf_in leaf.now) s t }
{
    leaf.occupied(t) && print_at(leaf, t) == print && key_at(leaf, t) == key
}

// Whether slot s is occupied and a lower one has its key.
fn is_twin(leaf: &Page, s: Slot) -> bool
    ensures { result ≡ twin_at (leaf_in leaf.now) s }
{
    if leaf.occupied(s) {
        let print = print_at(leaf, s);
        let key = key_at(leaf, s);
        for t in 0..s.number() {
            if has_both(leaf, print, key, Slot::new(t)) {
                return true;
            }
        }
    }
    false
}

// Whether slot s is occupied and a lower one has its key, where an even number says that none has.
fn is_hit_twin(leaf: &Page, s: Slot, hits: u64) -> bool
    requires { hits % 2 ≡ 0 → twin_at (leaf_in leaf.now) s ≡ false }
    ensures { result ≡ twin_at (leaf_in leaf.now) s }
{
    hits % 2 != 0 && is_twin(leaf, s)
}

// Whether two keys of the leaf are equal: only slots that were hit are compared with the lower ones, until no hit is left.
pub fn has_twins(leaf: &Page, hits: u64) -> bool
    requires { Hits (leaf_in leaf.now) 14 hits }
    ensures { result ≡ twins (leaf_in leaf.now) }
{
    let mut left = hits;
    for s in (0..Leaf::SLOTS).rev() {
        if left == 0 {
            return false;
        }
        if is_hit_twin(leaf, Slot::new(s), left) {
            return true;
        }
        left = left / 2;
    }
    false
}
