// A key with its value: what a slot of a leaf holds, and what a put brings.
ghost use Rattle.std.specs.Prelude.{◌≡◌};
ghost use Rattle.leaf.specs.Leaf.{leaf_in};

use header::slot::Slot;
use leaf::page::Page;
use leaf::search::{key_at, value_at};

#[derive(Clone, Copy)]
pub struct Entry {
    pub key: u64,
    pub value: u64,
}

// The entry of slot s.
pub fn entry_at(leaf: &Page, s: Slot) -> Entry
    ensures { (result.key ≡ (leaf_in leaf.now).key s) × (result.value ≡ (leaf_in leaf.now).val s) }
{
    Entry {
        key: key_at(leaf, s),
        value: value_at(leaf, s),
    }
}
