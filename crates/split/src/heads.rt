// The headers of a split's two leaves.
ghost use Rattle.std.specs.Prelude.{◌≡◌};
ghost use Rattle.header.specs.Header.{bits_of, flipped, cleared_all};
ghost use Rattle.leaf.specs.Leaf.{leaf_in};
ghost use Rattle.lists.specs.FullLists.{marked_from, new_header};

use crate::moved::Moved;
use header::slot::Slot;
use header::{Header, fingerprint_of};
use leaf::page::Page;
use leaf::tally::own_print;

// The moved entries in slots 7 to 13.
#[tactic(auto, using(crate::specs::Heads::marked_more))]
fn upper_head(leaf: &Page, moved: &Moved) -> Header
    ensures { bits_of result ≡ marked_from (leaf_in leaf.now) 0 7 moved.now.slots }
{
    let mut head = Header { low: 0, high: 0 };
    for (i, &s) in moved.slots.iter().enumerate() {
        head = head.mark(Slot::new(7 + i), own_print(leaf, Slot::new(s as usize)));
    }
    head
}

// The new leaf's header, with the new entry in slot 6 where it goes there.
pub fn new_head(leaf: &Page, moved: &Moved, up: bool, key: u64) -> Header
    ensures { bits_of result ≡ new_header up (leaf_in leaf.now) moved.now.slots key }
{
    let head = upper_head(leaf, moved);
    if up {
        return head.mark(Slot::new(6), fingerprint_of(key));
    }
    head
}

// The old leaf's header when it is switched: "moved bits cleared and alt flipped".
#[tactic(auto, using(crate::specs::Heads::cleared_more))]
pub fn old_head(head: Header, moved: &Moved) -> Header
    ensures { bits_of result ≡ flipped (cleared_all (bits_of head) moved.now.slots) }
{
    let mut rest = head;
    for &s in &moved.slots {
        rest = rest.clear(Slot::new(s as usize));
    }
    rest.flip_alt()
}
