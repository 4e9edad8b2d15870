// The lists of three steps: set, and both of del.
ghost use Rattle.std.specs.Prelude.{◌≡◌, ℕ, [], ◌∷◌, ◌+◌, ◌*◌, ◌≤◌, ◌<◌, length};
ghost use Rattle.header.specs.Header.{bits_of};
ghost use Rattle.leaf.specs.Leaf.{view};
ghost use Rattle.steps.specs.Shapes.{one_store};
ghost use Rattle.steps.specs.Stores.{stores_from};
ghost use Rattle.steps.specs.Encoding.{written};
ghost use Rattle.lists.specs.Lists.{head_in, set_list, clear_list, unlink_list};
ghost use Rattle.emit.specs.Appended.{appended};

use header::Header;
use header::slot::Slot;
use leaf::place::Leaf;
use machine::list::put_step;
use steps::Step;

// From step `at` on: two words stored, one behind the other. So an entry is stored, and a header.
#[tactic(auto, unfolding(crate::specs::Appended::appended))]
pub fn append_pair(list: &mut [u64], at: usize, place: u64, a: u64, b: u64)
    requires { (2 * at + 4 ≤ length list.old) × (place < 8191) }
    ensures { list.new ≡ appended list.old at (stores_from place (a ∷ b ∷ [])) }
{
    put_step(list, at, Step::Store(place, a));
    put_step(list, at + 1, Step::Store(place + 1, b));
}

// From step `at` on: a store, the write-back of its line, a fence. Each list of document 01 ends so.
#[tactic(auto, unfolding(crate::specs::Appended::appended))]
pub fn append_store(list: &mut [u64], at: usize, place: u64, value: u64)
    requires { (2 * at + 6 ≤ length list.old) × (place < 8192) }
    ensures { list.new ≡ appended list.old at (one_store place value) }
{
    put_step(list, at, Step::Store(place, value));
    put_step(list, at + 1, Step::WriteBack(place / 8));
    put_step(list, at + 2, Step::Fence);
}

#[tactic(auto, using(crate::specs::Appended::appended_start), unfolding(lists::specs::Lists::set_list))]
pub fn write_set(list: &mut [u64], block: u8, s: Slot, value: u64)
    requires { 6 ≤ length list.old }
    ensures { list.new ≡ written (set_list block s value) list.old }
{
    append_store(
        list,
        0,
        Leaf::WORDS * u64::from(block) + Leaf::value_word(s),
        value,
    );
}

// The header is that of the block in some image, whose list this is.
#[tactic(auto, using(crate::specs::Appended::appended_start), unfolding(lists::specs::Lists::clear_list))]
pub fn write_clear(list: &mut [u64], head: Header, block: u8, s: Slot)
    requires { 6 ≤ length list.old }
    ensures { (w : ℕ → ℕ) → head_in w block ≡ bits_of head
        → list.new ≡ written (clear_list w block s) list.old }
{
    append_store(list, 0, Leaf::WORDS * u64::from(block), head.clear(s).low);
}

// The header is that of the block before; `next` is the active sibling of the leaf that is taken out.
#[tactic(auto, using(crate::specs::Appended::appended_start, header::proofs::HeaderLaws::alt_lt), unfolding(lists::specs::Lists::unlink_list))]
pub fn write_unlink(list: &mut [u64], head: Header, before: u8, next: u64)
    requires { 6 ≤ length list.old }
    ensures { (w : ℕ → ℕ) (block : ℕ) → head_in w before ≡ bits_of head → (view w block).next ≡ next
        → list.new ≡ written (unlink_list w before block) list.old }
{
    append_store(
        list,
        0,
        Leaf::WORDS * u64::from(before) + Leaf::sibling_word(head.alt()),
        next,
    );
}
