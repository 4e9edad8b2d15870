// The plain put: into line 0, or past it with the entries moved out of line 0.
ghost use Rattle.std.specs.Prelude.{◌≡◌, ◌+◌, ◌*◌, ◌≤◌, ◌<◌, length};
ghost use Rattle.header.specs.Header.{bits_of, marked, cleared, fingerprint_of};
ghost use Rattle.leaf.specs.Leaf.{leaf_in};
ghost use Rattle.lists.specs.Lists.{entry_steps, near_put, copies_beside, copy_steps, filled_head};
ghost use Rattle.lists.specs.Lists.{far_put, put_at, plain_put};
ghost use Rattle.emit.specs.Appended.{appended, Wrote};
ghost use Rattle.emit.specs.PutLaws.{settling, header_steps};

use crate::entry::{Entry, entry_at};
use crate::short::{append_pair, append_store};
use header::slot::Slot;
use header::{Header, fingerprint_of};
use leaf::page::Page;
use leaf::place::Leaf;
use leaf::search::{key_at, lowest_vacant};
use machine::list::put_step;
use steps::Step;

// An entry stored in slot s of a block: the value stands behind the key.
fn append_entry(list: &mut [u64], at: usize, block: u8, s: Slot, entry: Entry)
    requires { 2 * at + 4 ≤ length list.old }
    ensures { list.new ≡ appended list.old at (entry_steps block s entry.key entry.value) }
{
    let place = Leaf::WORDS * u64::from(block) + Leaf::key_word(s);
    append_pair(list, at, place, entry.key, entry.value);
}

#[tactic(auto, unfolding(crate::specs::Appended::appended, lists::specs::Lists::near_put))]
fn append_near_put(list: &mut [u64], at: usize, head: Header, block: u8, s: Slot, entry: Entry)
    requires { 2 * at + 10 ≤ length list.old }
    ensures { list.new ≡ appended list.old at (near_put (bits_of head) block s entry.key entry.value) }
{
    append_entry(list, at, block, s, entry);
    let filled = head.mark(s, fingerprint_of(entry.key));
    append_store(list, at + 2, Leaf::WORDS * u64::from(block), filled.low);
}

// The header with the entry of one slot moved to another.
fn moved(head: Header, leaf: &Page, from: Slot, to: Slot) -> Header
    ensures { bits_of result ≡ marked (cleared (bits_of head) from) to (fingerprint_of ((leaf_in leaf.now).key from)) }
{
    head.clear(from)
        .mark(to, fingerprint_of(key_at(leaf, from)))
}

// "with the new entry and the copies marked, the copies' old bits cleared".
fn filled_head(head: Header, leaf: &Page, s: Slot, key: u64) -> Header
    requires { 3 ≤ s }
    ensures { bits_of result ≡ filled_head (bits_of head) (leaf_in leaf.now) s key }
{
    let last = Leaf::last_beside(s);
    let mut filled = head.mark(s, fingerprint_of(key));
    let mut from = 0;
    for n in s.number() + 1..last.number() + 1 {
        let t = Slot::new(n);
        if !head.occupied(t) {
            filled = moved(filled, leaf, Slot::new(from), t);
            from += 1;
        }
    }
    filled
}

// The copies, and how many they are.
fn append_copies(
    list: &mut [u64],
    at: usize,
    head: Header,
    leaf: &Page,
    block: u8,
    s: Slot,
) -> usize
    requires { (2 * at + 12 ≤ length list.old) × (3 ≤ s) }
    ensures { (list.new
        ≡ appended list.old at (copy_steps (leaf_in leaf.now) block (copies_beside (bits_of head) s)))
        × (result ≡ length (copies_beside (bits_of head) s)) × (result ≤ 3) }
{
    let last = Leaf::last_beside(s);
    let mut from = 0;
    for n in s.number() + 1..last.number() + 1 {
        let t = Slot::new(n);
        if !head.occupied(t) {
            append_entry(
                list,
                at + 2 * from,
                block,
                t,
                entry_at(leaf, Slot::new(from)),
            );
            from += 1;
        }
    }
    from
}

// "Store word 1, then word 0 (..). Write back line 0, fence."
#[tactic(auto, unfolding(crate::specs::Appended::appended))]
fn append_header(list: &mut [u64], at: usize, block: u8, head: Header)
    requires { 2 * at + 8 ≤ length list.old }
    ensures { list.new ≡ appended list.old at (header_steps block (bits_of head)) }
{
    let place = Leaf::WORDS * u64::from(block);
    put_step(list, at, Step::Store(place + 1, head.high));
    append_store(list, at + 1, place, head.low);
}

// A line written back, and a fence.
#[tactic(auto, unfolding(crate::specs::Appended::appended))]
fn append_settling(list: &mut [u64], at: usize, line: u64)
    requires { (2 * at + 4 ≤ length list.old) × (line < 1024) }
    ensures { list.new ≡ appended list.old at (settling line) }
{
    put_step(list, at, Step::WriteBack(line));
    put_step(list, at + 1, Step::Fence);
}

// Tells how many steps it wrote, as the functions below do.
fn append_far_put(
    list: &mut [u64],
    at: usize,
    head: Header,
    leaf: &Page,
    block: u8,
    s: Slot,
    entry: Entry,
) -> usize
    requires { (2 * at + 28 ≤ length list.old) × (3 ≤ s) }
    ensures { Wrote list.old at (far_put (bits_of head) (leaf_in leaf.now) block s entry.key entry.value)
        list.new result }
{
    append_entry(list, at, block, s, entry);
    let n = append_copies(list, at + 2, head, leaf, block, s);
    let behind = at + 2 + 2 * n;
    append_settling(list, behind, Leaf::LINES * u64::from(block) + Leaf::line(s));
    append_header(
        list,
        behind + 2,
        block,
        filled_head(head, leaf, s, entry.key),
    );
    8 + 2 * n
}

// The plain put into the vacant slot s.
#[tactic(auto, unfolding(lists::specs::Lists::put_at, lists::specs::Lists::near_put))]
pub fn append_put_at(
    list: &mut [u64],
    at: usize,
    head: Header,
    leaf: &Page,
    block: u8,
    s: Slot,
    entry: Entry,
) -> usize
    requires { 2 * at + 28 ≤ length list.old }
    ensures { Wrote list.old at (put_at (bits_of head) (leaf_in leaf.now) block s entry.key entry.value)
        list.new result }
{
    if s.number() < 3 {
        append_near_put(list, at, head, block, s, entry);
        return 5;
    }
    append_far_put(list, at, head, leaf, block, s, entry)
}

// The plain put under a header. The keys and values are those of the leaf's bytes, whose header may be an older one.
#[tactic(auto, using(leaf::proofs::SearchLaws::vacant_at), unfolding(lists::specs::Lists::plain_put, crate::specs::Appended::appended))]
pub fn append_plain_put(
    list: &mut [u64],
    at: usize,
    head: Header,
    leaf: &Page,
    block: u8,
    entry: Entry,
) -> usize
    requires { 2 * at + 28 ≤ length list.old }
    ensures { Wrote list.old at (plain_put (bits_of head) (leaf_in leaf.now) block entry.key entry.value)
        list.new result }
{
    match lowest_vacant(head) {
        Some(s) => append_put_at(list, at, head, leaf, block, s, entry),
        None => 0,
    }
}
