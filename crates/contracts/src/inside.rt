// The calls of `index`, `writing` and `machine`.
ghost use Rattle.demands.specs.Calls.{Allowed};
ghost use Rattle.demands.specs.Calls as asked;

use index::find::find;
use index::listing::listing;
use index::recovery::{Recovered, recovery};
use machine::{cut, run};
use steps::Refusal;
use writing::Made;
use writing::change::{del, set};
use writing::put::put;

pub fn find_allowed(image: &[u8], key: u64) -> Result<u64, Refusal>
    ensures { Allowed (asked.find image.now key) result }
{
    find(image, key)
}

pub fn listing_allowed(
    image: &[u8],
    from: u64,
    keys: &mut [u64],
    values: &mut [u64],
) -> Result<u64, Refusal>
    ensures { Allowed (asked.listing image.now from keys.old values.old)
        (result, keys.new, values.new) }
{
    listing(image, from, keys, values)
}

pub fn recovery_allowed(
    image: &[u8],
    smallest: &mut [u64],
    blocks: &mut [u64],
) -> Result<Recovered, Refusal>
    ensures { Allowed (asked.recovery image.now smallest.old blocks.old)
        (result, smallest.new, blocks.new) }
{
    recovery(image, smallest, blocks)
}

pub fn put_allowed(image: &[u8], list: &mut [u64], key: u64, value: u64) -> Result<Made, Refusal>
    ensures { Allowed (asked.put image.now list.old key value) (result, list.new) }
{
    put(image, list, key, value)
}

pub fn set_allowed(image: &[u8], list: &mut [u64], key: u64, value: u64) -> Result<Made, Refusal>
    ensures { Allowed (asked.set image.now list.old key value) (result, list.new) }
{
    set(image, list, key, value)
}

pub fn del_allowed(image: &[u8], list: &mut [u64], key: u64) -> Result<Made, Refusal>
    ensures { Allowed (asked.del image.now list.old key) (result, list.new) }
{
    del(image, list, key)
}

pub fn run_allowed(image: &mut [u8], list: &[u64], n: usize) -> Result<(), Refusal>
    ensures { Allowed (asked.run image.old list.now n) (result, image.new) }
{
    run(image, list, n)
}

pub fn cut_allowed(
    image: &mut [u8],
    list: &[u64],
    n: usize,
    arrivals: &[u64],
) -> Result<(), Refusal>
    ensures { Allowed (asked.cut image.old list.now n arrivals.now) (result, image.new) }
{
    cut(image, list, n, arrivals)
}
