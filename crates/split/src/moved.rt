// The slots whose entries a split moves.
ghost use Rattle.std.specs.Prelude.{◌≡◌, ℕ, ◌<◌, get_or};
ghost use Rattle.leaf.specs.Leaf.{leaf_in, Right};
ghost use Rattle.leaf.specs.Search.{count};
ghost use Rattle.lists.specs.FullLists.{moved_slots};

use leaf::page::Page;
use order::order_from;

#[derive(Clone, Copy)]
pub struct Moved {
    pub slots: [u8; 7],
    pub ghost below: { (i : ℕ) → get_or slots i 0 < 14 },
}

// Of the slots of a full leaf, in rising order of their keys, the upper half.
pub fn upper_half(leaf: &Page) -> Moved
    requires { Right (leaf_in leaf.now) × (count (leaf_in leaf.now) ≡ 14) }
    ensures { result.slots ≡ moved_slots (leaf_in leaf.now) }
{
    let mut order = [0u8; 14];
    order_from(leaf, 0, &mut order);
    Moved {
        slots: order[7..14].try_into().unwrap(),
    }
}
