// Set and del: a change at a key that is there. Each makes three steps.
ghost use Rattle.std.specs.Prelude.{◌≡◌, ◌+◌, ◌*◌, ◌≤◌, eqb, length, not};
ghost use Rattle.words.specs.Bools.{both};
ghost use Rattle.words.specs.Words.{reads};
ghost use Rattle.steps.specs.Encoding.{written};
ghost use Rattle.lists.specs.Lists.{del_list};
ghost use Rattle.writing.specs.Writing.{made_as, set_of, del_of};
ghost use Rattle.writing.specs.PutCounts.{three_steps};

use crate::Made;
use crate::alike::walk_for;
use crate::block::page_in;
use emit::short::{write_clear, write_set, write_unlink};
use header::slot::Slot;
use leaf::search::{entries, find_slot, next_of};
use steps::Refusal;

fn three_steps() -> Made
    ensures { result ≡ three_steps }
{
    Made::of(3, 1, 1)
}

pub fn set(image: &[u8], list: &mut [u64], key: u64, value: u64) -> Result<Made, Refusal>
    ensures { made_as result list.new ≡ set_of image.now list.old key value }
{
    let w = walk_for(image, list, key)?;
    let target = w.end.target as u8;
    let s = find_slot(&page_in(image, target), key).ok_or(Refusal::Absent)?;
    write_set(list, target, s, value);
    Ok(three_steps())
}

// Whether an entry is the only one of a leaf other than block 0, where the leaf has n.
fn is_alone(block: u8, n: u64) -> bool
    ensures { result ≡ both (not (eqb block 0)) (eqb n 1) }
{
    block != 0 && n == 1
}

// The leaf that would be left empty is taken out of the chain; elsewhere the slot's bit is cleared.
fn write_del(image: &[u8], before: u8, block: u8, s: Slot, list: &mut [u64])
    requires { (256 * before + 256 ≤ length image.now) × (256 * block + 256 ≤ length image.now)
        × (112 ≤ length list.old) }
    ensures { list.new ≡ written (del_list (reads image.now) before block s) list.old }
{
    let leaf = page_in(image, block);
    if is_alone(block, entries(leaf.head())) {
        let head = page_in(image, before).head();
        write_unlink(list, head, before, next_of(&leaf));
    } else {
        write_clear(list, leaf.head(), block, s);
    }
}

pub fn del(image: &[u8], list: &mut [u64], key: u64) -> Result<Made, Refusal>
    ensures { made_as result list.new ≡ del_of image.now list.old key }
{
    let w = walk_for(image, list, key)?;
    let target = w.end.target as u8;
    let s = find_slot(&page_in(image, target), key).ok_or(Refusal::Absent)?;
    write_del(image, w.end.before as u8, target, s, list);
    Ok(three_steps())
}
