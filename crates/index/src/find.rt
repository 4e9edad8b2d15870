// Find: the value of a key. It looks only in the key's target leaf.
ghost use Rattle.std.specs.Prelude.{◌≡◌, ◌+◌, ◌*◌, ◌≤◌, length};
ghost use Rattle.leaf.specs.Leaf.{leaf_in};
ghost use Rattle.leaf.specs.Search.{slot_of};
ghost use Rattle.image.specs.Image.{leaves};
ghost use Rattle.index.specs.Reading.{found_as, find_of};
ghost use Rattle.index.specs.FindLaws.{found_at};

use leaf::page::{Page, page_of};
use leaf::search::{find_slot, value_at};
use machine::check_image;
use steps::Refusal;
use survey::walk::survey;

fn find_leaf(leaf: &Page, key: u64) -> Result<u64, Refusal>
    ensures { result ≡ found_at (leaf_in leaf.now) (slot_of (leaf_in leaf.now) key) }
{
    let Some(s) = find_slot(leaf, key) else {
        return Err(Refusal::Absent);
    };
    Ok(value_at(leaf, s))
}

pub fn find(image: &[u8], key: u64) -> Result<u64, Refusal>
    ensures { found_as result ≡ find_of image.now key }
{
    check_image(image.len() as u64)?;
    let w = survey(image, key).sound()?;
    find_leaf(&page_of(image, w.end.target), key)
}
