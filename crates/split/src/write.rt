// The steps of a split, each at its place in the list: 32 stores of the new leaf, the link, the write-backs, the switch.
ghost use Rattle.std.specs.Prelude.{◌≡◌, [], ◌∷◌, ◌++◌, ℕ, ◌+◌, ◌*◌, ◌≤◌, ◌<◌, length, replicate};
ghost use Rattle.header.specs.Header.{bits_of, head_at, flipped, cleared_all};
ghost use Rattle.leaf.specs.Leaf.{leaf_in, view};
ghost use Rattle.steps.specs.declared.Step.TheVariants.{Fence as fence};
ghost use Rattle.steps.specs.Encoding.{written};
ghost use Rattle.steps.specs.Stores.{stores_from};
ghost use Rattle.lists.specs.Lists.{word_place, low_word, high_word, head_in};
ghost use Rattle.lists.specs.FullLists.{moved_slots, goes_up, entry_words, new_words, split_backs, split_list};
ghost use Rattle.emit.specs.Appended.{appended};

use crate::heads::{new_head, old_head};
use crate::moved::Moved;
use emit::entry::{Entry, entry_at};
use emit::short::{append_pair, append_store};
use header::Header;
use header::slot::Slot;
use leaf::page::Page;
use leaf::place::Leaf;
use leaf::search::next_of;
use machine::list::put_step;
use steps::Step;

// The new leaf's slots 0 to 5: "all else zero".
#[tactic(auto, using(crate::specs::Stores::zeros_more), unfolding(emit::specs::Appended::appended))]
fn append_zeros(list: &mut [u64], at: usize, place: u64)
    requires { (2 * at + 24 ≤ length list.old) × (place < 8180) }
    ensures { list.new ≡ appended list.old at (stores_from place (replicate 12 0)) }
{
    for i in 0..12usize {
        put_step(list, at + i, Step::Store(place + i as u64, 0));
    }
}

// The moved entries.
#[tactic(auto, unfolding(emit::specs::Appended::appended))]
fn append_moved(list: &mut [u64], at: usize, place: u64, leaf: &Page, moved: &Moved)
    requires { (2 * at + 28 ≤ length list.old) × (place < 8178) }
    ensures { list.new
        ≡ appended list.old at (stores_from place (entry_words (leaf_in leaf.now) moved.now.slots)) }
{
    for (i, &s) in moved.slots.iter().enumerate() {
        let entry = entry_at(leaf, Slot::new(s as usize));
        append_pair(
            list,
            at + 2 * i,
            place + 2 * (i as u64),
            entry.key,
            entry.value,
        );
    }
}

// The new leaf's header and its slots 0 to 6, from the start of the list on.
fn write_lower(list: &mut [u64], place: u64, head: Header, last: Entry)
    requires { (32 ≤ length list.old) × (place < 8161) }
    ensures { list.new ≡ appended list.old 0 (stores_from place
        (low_word (bits_of head) ∷ high_word (bits_of head) ∷ (replicate 12 0 ++ (last.key ∷ last.value ∷ [])))) }
{
    append_pair(list, 0, place, head.low, head.high);
    append_zeros(list, 2, place + Leaf::key_word(Slot::new(0)));
    append_pair(
        list,
        14,
        place + Leaf::key_word(Slot::new(6)),
        last.key,
        last.value,
    );
}

// "Its 32 words are stored in rising order", from the start of the list on. Where the new entry does not go up, slot 6 is zero too.
fn write_new_leaf(list: &mut [u64], leaf: &Page, moved: &Moved, new: u8, up: bool, entry: Entry)
    requires { (64 ≤ length list.old) }
    ensures { list.new ≡ appended list.old 0
        (stores_from (word_place new 0) (new_words up (leaf_in leaf.now) moved.now.slots entry.key entry.value)) }
{
    let place = Leaf::WORDS * u64::from(new);
    let last = if up {
        entry
    } else {
        Entry { key: 0, value: 0 }
    };
    write_lower(list, place, new_head(leaf, moved, up, entry.key), last);
    append_moved(list, 16, place + Leaf::key_word(Slot::new(7)), leaf, moved);
    append_pair(list, 30, place + Leaf::sibling_word(0), next_of(leaf), 0);
}

// "Write back the new leaf's four lines in order, then line 3 of the old leaf; fence."
#[tactic(auto, unfolding(emit::specs::Appended::appended))]
fn append_backs(list: &mut [u64], at: usize, old: u8, new: u8)
    requires { 2 * at + 12 ≤ length list.old }
    ensures { list.new ≡ appended list.old at (split_backs old new ++ fence ∷ []) }
{
    let line = Leaf::LINES * u64::from(new);
    put_step(list, at, Step::WriteBack(line));
    put_step(list, at + 1, Step::WriteBack(line + 1));
    put_step(list, at + 2, Step::WriteBack(line + 2));
    put_step(list, at + 3, Step::WriteBack(line + 3));
    put_step(
        list,
        at + 4,
        Step::WriteBack(Leaf::LINES * u64::from(old) + Leaf::SIBLING_LINE),
    );
    put_step(list, at + 5, Step::Fence);
}

// The whole split: 42 steps. The moved slots and whether the new key goes up with them are the leaf's. Gives the header that the
// leaf is left with.
pub fn write_split(
    list: &mut [u64],
    leaf: &Page,
    moved: &Moved,
    block: u8,
    new: u8,
    up: bool,
    entry: Entry,
) -> Header
    requires { (84 ≤ length list.old) × (moved.now.slots ≡ moved_slots (leaf_in leaf.now))
        × (up ≡ goes_up (leaf_in leaf.now) entry.key) }
    ensures list { (w : ℕ → ℕ) → head_in w block ≡ head_at leaf.now 0 → view w block ≡ leaf_in leaf.now
        → list.new ≡ written (split_list w block new entry.key entry.value) list.old }
    ensures left { bits_of result ≡ flipped (cleared_all (head_at leaf.now 0) moved.now.slots) }
{
    write_new_leaf(list, leaf, moved, new, up, entry);
    let head = leaf.head();
    let place = Leaf::WORDS * u64::from(block);
    put_step(
        list,
        32,
        Step::Store(place + Leaf::sibling_word(1 - head.alt()), u64::from(new)),
    );
    append_backs(list, 33, block, new);
    let left = old_head(head, moved);
    append_store(list, 39, place, left.low);
    left
}
