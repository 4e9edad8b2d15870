// Put: a plain one into a leaf that has room, or a split.
ghost use Rattle.std.specs.Prelude.{◌≡◌, ℕ, ◌+◌, ◌≤◌, length, Ok};
ghost use Rattle.header.specs.Header.{head_at};
ghost use Rattle.leaf.specs.Leaf.{leaf_in, Right};
ghost use Rattle.leaf.specs.Search.{count};
ghost use Rattle.lists.specs.Lists.{put_at};
ghost use Rattle.lists.specs.FullLists.{full_put};
ghost use Rattle.split.specs.Full.{HasLeaf};
ghost use Rattle.writing.specs.Writing.{outcome, made_as, put_of};
ghost use Rattle.writing.specs.PutCounts.{plain_lines, full_lines};

use crate::Made;
use crate::alike::walk_for;
use crate::block::page_in;
use emit::entry::Entry;
use emit::plain::append_put_at;
use header::slot::Slot;
use leaf::page::Page;
use leaf::place::Leaf;
use leaf::search::{find_slot, lowest_vacant};
use split::full::write_full_put;
use steps::Refusal;

// A put into line 0 makes 5 steps and one line write; past it there are two.
fn plain_lines(n: u64) -> u64
    ensures { (result ≡ plain_lines n) × (result ≤ 2) }
{
    if n == 5 { 1 } else { 2 }
}

// The put into the vacant slot s of a block's leaf. Each line write has its fence.
fn put_plain(leaf: &Page, block: u8, s: Slot, list: &mut [u64], entry: Entry) -> Made
    requires { 112 ≤ length list.old }
    ensures { made_as (Ok result) list.new
        ≡ outcome 0 (put_at (head_at leaf.now 0) (leaf_in leaf.now) block s entry.key entry.value) list.old }
{
    let n = append_put_at(list, 0, leaf.head(), leaf, block, s, entry) as u64;
    let lines = plain_lines(n);
    Made::of(n, lines, lines)
}

// The split makes 42 steps and 6 line writes; a plain put may follow.
fn full_lines(n: u64) -> u64
    requires { 42 ≤ n }
    ensures { (result ≡ full_lines n) × (6 ≤ result) × (result ≤ 8) }
{
    if n == 42 { 6 } else { 6 + plain_lines(n - 42) }
}

// The put into a full leaf that is split into the free block `new`, in any image that has the leaf. The split has four fences fewer
// than line writes.
fn put_full(leaf: &Page, block: u8, new: u8, list: &mut [u64], entry: Entry) -> Made
    requires { (112 ≤ length list.old) × Right (leaf_in leaf.now) × (count (leaf_in leaf.now) ≡ 14)
        × ((w : ℕ → ℕ) × HasLeaf (head_at leaf.now 0) (leaf_in leaf.now) block new w) }
    ensures { (w : ℕ → ℕ) → HasLeaf (head_at leaf.now 0) (leaf_in leaf.now) block new w
        → made_as (Ok result) list.new ≡ outcome 0 (full_put w block new entry.key entry.value) list.old }
{
    let n = write_full_put(list, leaf, block, new, entry) as u64;
    let lines = full_lines(n);
    Made::of(n, lines, lines - 4)
}

// "Take the lowest vacant slot"; a full leaf is split into "the lowest block not in the chain". The blocks of the chain are those
// that the walk met.
pub fn put(image: &[u8], list: &mut [u64], key: u64, value: u64) -> Result<Made, Refusal>
    ensures { made_as result list.new ≡ put_of image.now list.old key value }
{
    let w = walk_for(image, list, key)?;
    let target = w.end.target as u8;
    let leaf = page_in(image, target);
    if find_slot(&leaf, key).is_some() {
        return Err(Refusal::Present);
    }
    let entry = Entry { key, value };
    if let Some(s) = lowest_vacant(leaf.head()) {
        return Ok(put_plain(&leaf, target, s, list, entry));
    }
    let new = w
        .met
        .lowest_out(image.len() / Leaf::BYTES)
        .ok_or(Refusal::Full)?;
    Ok(put_full(&leaf, target, new as u8, list, entry))
}
