// The walk.
ghost use Rattle.std.specs.Prelude.{◌≡◌, not, ◌+◌, ◌*◌, ◌/◌, ◌≤◌, ◌<◌, eqb, false, length, set, MatchResult};
ghost use Rattle.words.specs.Words.{reads};
ghost use Rattle.words.specs.Bools.{bit};
ghost use Rattle.words.specs.WordLaws.{Bytes};
ghost use Rattle.header.specs.Header.{head_at};
ghost use Rattle.leaf.specs.Leaf.{leaf_in, view};
ghost use Rattle.leaf.specs.Search.{smallest_of};
ghost use Rattle.leaf.specs.Tally.{twins};
ghost use Rattle.leaf.specs.TallySteps.{Hits};
ghost use Rattle.survey.specs.Marks.{blocks_in, is_in};
ghost use Rattle.survey.specs.Walk.{number_told, state_in, state_of, fault_by, reached_by, smallest_by, judged, moved, start, surveyed, Noted};

use crate::marks::Marks;
use leaf::page::{Page, page_of};
use leaf::place::Leaf;
use leaf::search::next_of;
use leaf::tally::{Tally, has_twins, tally_of};
use steps::Refusal;

// What is wrong with a leaf: request [1]'s faults, in the order in which they are looked for.
#[derive(Clone, Copy, Debug, PartialEq, Eq)]
pub enum Fault {
    Far,
    Again,
    Locked,
    Bare,
    WrongPrint,
    Twin,
    Low,
}

#[derive(Clone, Copy, Debug, PartialEq, Eq)]
pub enum Stage {
    GoesOn,
    Ended,
    Broken(Fault),
}

// Where the walk is, or where it ended, and what it has noted of the leaves passed.
#[derive(Clone, Copy)]
pub struct Progress {
    pub stage: Stage,
    pub at: u64,
    pub prev: u64,
    pub target: u64,
    pub before: u64,
    pub leaves: u64,
    pub entries: u64,
    pub last: u64,
}

// What the walk tells. The blocks met stand apart while it goes on: an array that is asked by a number would keep all that stands
// in one value with it out of the registers.
#[derive(Clone, Copy)]
pub struct Walk {
    pub end: Progress,
    pub met: Marks,
}

impl Walk {
    // Refusal 3: the walk of a sound image.
    pub fn sound(self) -> Result<Walk, Refusal>
        ensures { MatchResult result (λ w. (w ≡ self) × ((state_of self).stage ≡ 1))
            (λ e. (eqb (state_of self).stage 1 ≡ false) × (e ≡ Refusal.Unsound)) }
    {
        match self.end.stage {
            Stage::Ended => Ok(self),
            _ => Err(Refusal::Unsound),
        }
    }
}

impl Progress {
    // At block 0, which is met.
    fn begun(met: &mut Marks) -> Progress
        requires { is_in (blocks_in met.old) ≡ (λ b. false) }
        ensures { state_in result met.new ≡ start }
    {
        met.mark(0);
        Progress {
            stage: Stage::GoesOn,
            at: 0,
            prev: 0,
            target: 0,
            before: 0,
            leaves: 0,
            entries: 0,
            last: 0,
        }
    }

    // The leaf at hand is good: note it, and go on to the next.
    fn onward(&mut self, met: &mut Marks, next: u64, reached: bool, t: Tally)
        requires { (next < 256) × (self.old.leaves ≤ 256) × (self.old.entries ≤ 3584) × (t.entries ≤ 14) }
        ensures { state_in self.new met.new ≡ moved next t.entries (bit reached) t.most (state_in self.old met.old) }
    {
        met.mark(next as usize);
        self.stage = if next == 0 {
            Stage::Ended
        } else {
            Stage::GoesOn
        };
        self.target = if reached { self.at } else { self.target };
        self.before = if reached { self.prev } else { self.before };
        self.last = if t.entries == 0 { self.last } else { t.most };
        self.prev = self.at;
        self.at = next;
        self.leaves += 1;
        self.entries += t.entries;
    }

    // The first of the faults of the leaf at hand, whose active sibling and tally are told.
    fn fault(&self, met: &Marks, leaf: &Page, n: u64, next: u64, t: Tally) -> Option<Fault>
        requires { (n ≤ 256) × Hits (leaf_in leaf.now) 14 t.hits }
        ensures { number_told result
            ≡ fault_by n next (head_at leaf.now 0) (twins (leaf_in leaf.now)) t (reached_by t self.now.last) (state_in self.now met.now) }
    {
        if n <= next {
            return Some(Fault::Far);
        }
        if met.has(next as usize) && next != 0 {
            return Some(Fault::Again);
        }
        if leaf.head().locked() {
            return Some(Fault::Locked);
        }
        if t.entries == 0 && self.at != 0 {
            return Some(Fault::Bare);
        }
        if t.wrong != 0 {
            return Some(Fault::WrongPrint);
        }
        if has_twins(leaf, t.hits) {
            return Some(Fault::Twin);
        }
        if self.entries != 0 && reaches(t, self.last) {
            return Some(Fault::Low);
        }
        None
    }

    // The leaf at hand judged: the walk goes on to the next, or stops.
    fn judge(
        &mut self,
        met: &mut Marks,
        leaf: &Page,
        n: u64,
        key: u64,
        stamps: &mut [u8; 256],
        leasts: &mut [u64],
        numbers: &mut [u8],
    )
        requires { Bytes leaf.now × (n ≤ 256) × (self.old.leaves ≤ 256)
            × (self.old.entries ≤ 3584) × (self.old.at < 256) }
        ensures { (state_in self.new met.new ≡ judged (leaf_in leaf.now) n key (state_in self.old met.old))
            × (leasts.new ≡ set leasts.old self.old.leaves (smallest_of (leaf_in leaf.now)))
            × (numbers.new ≡ set numbers.old self.old.leaves self.old.at) }
    {
        let t = tally_of(leaf, stamps, stamp_of(self.leaves));
        note_leaf(leasts, numbers, self.leaves as usize, self.at, t);
        let next = next_of(leaf);
        match self.fault(met, leaf, n, next, t) {
            Some(fault) => self.stage = Stage::Broken(fault),
            None => self.onward(met, next, reaches(t, key), t),
        }
    }

    // One turn: the leaf at hand, in its part of the image, judged and noted.
    fn turn(
        &mut self,
        met: &mut Marks,
        image: &[u8],
        n: u64,
        key: u64,
        stamps: &mut [u8; 256],
        leasts: &mut [u64],
        numbers: &mut [u8],
    )
        requires { (n ≤ 256) × (256 * n ≤ length image.now) × (self.old.at < n) × (self.old.leaves ≤ 256)
            × (self.old.entries ≤ 3584) }
        ensures { (state_in self.new met.new ≡ judged (view (reads image.now) self.old.at) n key (state_in self.old met.old))
            × (leasts.new ≡ set leasts.old self.old.leaves (smallest_of (view (reads image.now) self.old.at)))
            × (numbers.new ≡ set numbers.old self.old.leaves self.old.at) }
    {
        self.judge(
            met,
            &page_of(image, self.at),
            n,
            key,
            stamps,
            leasts,
            numbers,
        )
    }
}

// Whether some key of the leaf is at most x.
fn reaches(t: Tally, x: u64) -> bool
    ensures { bit result ≡ reached_by t x }
{
    t.entries != 0 && t.least <= x
}

// What the stamps of a leaf bear, from 255 down: they hold 0 at first, and no leaf near it has the same.
fn stamp_of(leaves: u64) -> u8 {
    (255 - leaves % 256) as u8
}

// Notes the smallest key and the number of the leaf that is the i-th of the walk, where the buffers reach so far: who asks for
// no notes lends empty ones, and one test then tells that neither does.
fn note_leaf(leasts: &mut [u64], numbers: &mut [u8], i: usize, at: u64, t: Tally)
    requires { at < 256 }
    ensures { (leasts.new ≡ set leasts.old i (smallest_by t)) × (numbers.new ≡ set numbers.old i at) }
{
    if i < leasts.len().max(numbers.len()) {
        if i < leasts.len() {
            leasts[i] = if t.entries == 0 { 0 } else { t.least };
        }
        if i < numbers.len() {
            numbers[i] = at as u8;
        }
    }
}

// The walk, with the smallest key and the number of each leaf noted in chain order. It makes at most as many turns as there are
// blocks: no chain is longer.
pub fn survey_noting(image: &[u8], key: u64, leasts: &mut [u64], numbers: &mut [u8]) -> Walk
    requires { (256 ≤ length image.now) × (length image.now ≤ 65536) }
    ensures { (state_of result ≡ surveyed (view (reads image.now)) (length image.now / 256) key)
        × Noted (view (reads image.now)) (length image.now / 256) key leasts.new
        numbers.new }
{
    let n = (image.len() / Leaf::BYTES) as u64;
    let mut stamps = [0u8; 256];
    let mut met = Marks::none();
    let mut end = Progress::begun(&mut met);
    for _ in 0..n {
        end.turn(&mut met, image, n, key, &mut stamps, leasts, numbers);
        let Stage::GoesOn = end.stage else {
            return Walk { end, met };
        };
    }
    Walk { end, met }
}

pub fn survey(image: &[u8], key: u64) -> Walk
    requires { (256 ≤ length image.now) × (length image.now ≤ 65536) }
    ensures { state_of result ≡ surveyed (view (reads image.now)) (length image.now / 256) key }
{
    survey_noting(image, key, &mut [], &mut [])
}
