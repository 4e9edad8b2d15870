// Listing: the entries from a key on, rising, into two lent buffers.
ghost use Rattle.std.specs.Prelude.{◌≡◌, ℕ, ◌*◌, ◌≤◌, ◌<◌, length, get_or};
ghost use Rattle.leaf.specs.Leaf.{leaf_in, Right};
ghost use Rattle.image.specs.Chain.{All};
ghost use Rattle.image.specs.Entries.{entries_at};
ghost use Rattle.image.specs.Image.{blocks, leaves};
ghost use Rattle.index.specs.Reading.{chain_from, listed_as, listing_is, listing_of};
ghost use Rattle.index.specs.Filling.{buffers, fill};
ghost use Rattle.index.specs.ListingLaws.{entries_from, list_from};

use header::slot::Slot;
use leaf::page::{Page, page_of};
use leaf::place::Leaf;
use leaf::search::{key_at, value_at};
use machine::check_image;
use order::order_from;
use steps::Refusal;
use survey::along::next_block;
use survey::walk::survey;

// The entries of the slots of an order, from the start of two buffers of one length on, while there is room.
fn list_slots(leaf: &Page, order: &[u8], keys: &mut [u64], values: &mut [u64]) -> usize
    requires { (length keys.old ≡ length values.old) × ((i : ℕ) → get_or order.now i 0 < 14) }
    ensures few { result ≤ length keys.old }
    ensures filled { buffers result keys.new values.new
        ≡ fill (length keys.old) (entries_at (leaf_in leaf.now) order.now) (buffers 0 keys.old values.old) }
{
    for (i, slot) in order.iter().enumerate() {
        if i == keys.len() {
            return i;
        }
        let s = Slot::new(*slot as usize);
        keys[i] = key_at(leaf, s);
        values[i] = value_at(leaf, s);
    }
    order.len()
}

// The entries of a leaf with keys from `from` on.
fn list_leaf(leaf: &Page, from: u64, keys: &mut [u64], values: &mut [u64]) -> usize
    requires { Right (leaf_in leaf.now) × (length keys.old ≡ length values.old) }
    ensures few { result ≤ length keys.old }
    ensures filled { buffers result keys.new values.new
        ≡ fill (length keys.old) (entries_from (leaf_in leaf.now) from) (buffers 0 keys.old values.old) }
{
    let mut order = [0u8; 14];
    let count = order_from(leaf, from, &mut order);
    list_slots(leaf, &order[..count], keys, values)
}

// From the target leaf on, until the chain ends or the room is full. No chain is longer than the image has blocks.
fn list_chain(image: &[u8], target: u64, from: u64, keys: &mut [u64], values: &mut [u64]) -> usize
    requires { (256 * blocks image.now ≤ length image.now) × (length keys.old ≡ length values.old)
        × All (λ b. (b < blocks image.now) × Right (leaves image.now b))
        (chain_from (leaves image.now) (blocks image.now) target) }
    ensures { buffers result keys.new values.new
        ≡ fill (length keys.old) (list_from (leaves image.now) from
        (chain_from (leaves image.now) (blocks image.now) target))
        (buffers 0 keys.old values.old) }
{
    let room = keys.len();
    let mut block = target;
    let mut lo = from;
    let mut n = 0;
    for _turn in 0..image.len() / Leaf::BYTES {
        let leaf = page_of(image, block);
        n += list_leaf(&leaf, lo, &mut keys[n..], &mut values[n..]);
        if n == room {
            return n;
        }
        block = next_block(image, block);
        if block == 0 {
            return n;
        }
        lo = 0;
    }
    n
}

pub fn listing(
    image: &[u8],
    from: u64,
    keys: &mut [u64],
    values: &mut [u64],
) -> Result<u64, Refusal>
    ensures { listing_is (listed_as result) keys.new values.new
        ≡ listing_of image.now from keys.old values.old }
{
    check_image(image.len() as u64)?;
    let w = survey(image, from).sound()?;
    let room = keys.len().min(values.len());
    let n = list_chain(
        image,
        w.end.target,
        from,
        &mut keys[..room],
        &mut values[..room],
    );
    Ok(n as u64)
}
