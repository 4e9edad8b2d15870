// The put into a full leaf: the split, and where the new key is below the smallest moved one, the plain put behind it.
ghost use Rattle.std.specs.Prelude.{◌≡◌, ◌≤◌, length};
ghost use Rattle.header.specs.Header.{head_at};
ghost use Rattle.leaf.specs.Leaf.{leaf_in, Right};
ghost use Rattle.leaf.specs.Search.{count};
ghost use Rattle.split.specs.Full.{FullPut};

use crate::moved::upper_half;
use crate::write::write_split;
use emit::entry::Entry;
use emit::plain::append_plain_put;
use header::slot::Slot;
use leaf::page::Page;
use leaf::search::key_at;

// Tells how many steps it wrote. The leaf is that of the block in some image whose list this is.
pub fn write_full_put(list: &mut [u64], leaf: &Page, block: u8, new: u8, entry: Entry) -> usize
    requires { (112 ≤ length list.old) × Right (leaf_in leaf.now) × (count (leaf_in leaf.now) ≡ 14) }
    ensures { FullPut (head_at leaf.now 0) (leaf_in leaf.now) block new entry.key entry.value
        list.old list.new result }
{
    let moved = upper_half(leaf);
    let up = key_at(leaf, Slot::new(moved.slots[0] as usize)) < entry.key;
    let left = write_split(list, leaf, &moved, block, new, up, entry);
    if up {
        return 42;
    }
    42 + append_plain_put(list, 42, left, leaf, block, entry)
}
