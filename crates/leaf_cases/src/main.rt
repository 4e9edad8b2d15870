// Runs the leaf on the cases that a search gets wrong first: no entry, 14 entries, keys 0 and 2^64 - 1, keys with one fingerprint.
// What it must print is worked out by hand from document 01; the file stdout has it.
#![tactic(auto)]

ghost use Rattle.std.specs.Prelude.{◌<◌};

use header::slot::Slot;
use header::{Header, fingerprint_of};
use leaf::page::Page;
use leaf::place::Leaf;
use leaf::search::{entries, find_slot, lowest_vacant};
use leaf::tally::{has_twins, tally_of};
use std::io;
use telling::{end_line, tell};

// 14 where there is none.
fn tell_slot(rt: &impl Print, slot: Option<Slot>) -> io::Result<()> {
    tell(rt, slot.map_or(14, |s| s.number() as u64))
}

// The key in slot s, with the fingerprint told.
fn enter(leaf: &mut [u8; 256], s: usize, key: u64, print: u8)
    requires { s < 14 }
{
    let s = Slot::new(s);
    let head = Header::read(leaf, 0).mark(s, print);
    words::set_word(leaf, Leaf::key_place(s), key);
    words::set_word(leaf, 0, head.low);
    words::set_word(leaf, 8, head.high);
}

// Entries, smallest key (the largest word where there is none), lowest vacant slot, slots with a wrong fingerprint, whether two
// keys are equal.
fn tell_leaf(rt: &impl Print, leaf: &[u8; 256]) -> io::Result<()> {
    let leaf = Page::read(leaf);
    let mut stamps = [0u8; 256];
    let t = tally_of(&leaf, &mut stamps, 1);
    tell(rt, entries(leaf.head()))?;
    tell(rt, t.least)?;
    tell_slot(rt, lowest_vacant(leaf.head()))?;
    tell(rt, t.wrong)?;
    tell(rt, u64::from(has_twins(&leaf, t.hits)))?;
    end_line(rt)
}

// Where each key stands.
fn tell_keys(rt: &impl Print, leaf: &[u8; 256], keys: &[u64]) -> io::Result<()> {
    let leaf = Page::read(leaf);
    for key in keys {
        tell_slot(rt, find_slot(&leaf, *key))?;
        end_line(rt)?;
    }
    Ok(())
}

fn empty_leaf(rt: &impl Print) -> io::Result<()> {
    let leaf = [0u8; 256];
    tell_leaf(rt, &leaf)?;
    tell_keys(rt, &leaf, &[0])
}

fn outermost_keys(rt: &impl Print) -> io::Result<()> {
    let mut leaf = [0u8; 256];
    enter(&mut leaf, 3, 0, fingerprint_of(0));
    enter(&mut leaf, 5, u64::MAX, fingerprint_of(u64::MAX));
    tell_leaf(rt, &leaf)?;
    tell_keys(rt, &leaf, &[0, 1, u64::MAX])
}

// Slot s has the key 140 - 10s.
fn full_leaf(rt: &impl Print) -> io::Result<()> {
    let mut leaf = [0u8; 256];
    for s in 0..Leaf::SLOTS {
        let key = 140 - 10 * (s as u64);
        enter(&mut leaf, s, key, fingerprint_of(key));
    }
    tell_leaf(rt, &leaf)?;
    tell_keys(rt, &leaf, &[70, 71, 141])
}

// 1, 256 and 65,536 have the fingerprint 1.
fn one_fingerprint(rt: &impl Print) -> io::Result<()> {
    let mut leaf = [0u8; 256];
    enter(&mut leaf, 0, 1, 1);
    enter(&mut leaf, 1, 256, 1);
    tell_leaf(rt, &leaf)?;
    tell_keys(rt, &leaf, &[1, 256, 65536])?;
    enter(&mut leaf, 8, 256, 1);
    tell_leaf(rt, &leaf)?;
    enter(&mut leaf, 8, 256, 2);
    tell_leaf(rt, &leaf)
}

fn main(rt: HostRuntime) -> io::Result<()> {
    empty_leaf(&rt)?;
    outermost_keys(&rt)?;
    full_leaf(&rt)?;
    one_fingerprint(&rt)
}
