// The C library: the calls of `board` under the names of include/stringhut.h. Each export only calls, and promises what it calls.
#![tactic(auto)]

mod outside;

ghost use Rattle.std.specs.Prelude.{◌≡◌};
ghost use Rattle.index.specs.Reading.{told, find_of};
ghost use Rattle.index.specs.Reading.{counted, listing_is, listing_of};
ghost use Rattle.index.specs.Reading.{sizes, recovery_is, recovery_of};
ghost use Rattle.writing.specs.Writing.{put_of, set_of, del_of};
ghost use Rattle.machine.specs.Taking.{run_of, cut_of};
ghost use Rattle.board.specs.Told.{made_is};

use board::{making, reading, taking};
use told::making::HutMade;
use told::reading::{HutFound, HutListed, HutRecovered};

#[unsafe(no_mangle)]
pub extern "C" fn hut_find(image: &[u8], key: u64) -> HutFound
    ensures { told result.answer result.value ≡ find_of image.now key }
{
    reading::hut_find(image, key)
}

#[unsafe(no_mangle)]
pub extern "C" fn hut_put(image: &[u8], list: &mut [u64], key: u64, value: u64) -> HutMade
    ensures { made_is result.answer result.steps result.line_writes result.word_writes list.new
        ≡ put_of image.now list.old key value }
{
    making::hut_put(image, list, key, value)
}

#[unsafe(no_mangle)]
pub extern "C" fn hut_set(image: &[u8], list: &mut [u64], key: u64, value: u64) -> HutMade
    ensures { made_is result.answer result.steps result.line_writes result.word_writes list.new
        ≡ set_of image.now list.old key value }
{
    making::hut_set(image, list, key, value)
}

#[unsafe(no_mangle)]
pub extern "C" fn hut_del(image: &[u8], list: &mut [u64], key: u64) -> HutMade
    ensures { made_is result.answer result.steps result.line_writes result.word_writes list.new
        ≡ del_of image.now list.old key }
{
    making::hut_del(image, list, key)
}

#[unsafe(no_mangle)]
pub extern "C" fn hut_listing(
    image: &[u8],
    from: u64,
    keys: &mut [u64],
    values: &mut [u64],
) -> HutListed
    ensures { listing_is (counted result.answer result.count) keys.new values.new
        ≡ listing_of image.now from keys.old values.old }
{
    reading::hut_listing(image, from, keys, values)
}

#[unsafe(no_mangle)]
pub extern "C" fn hut_recovery(
    image: &[u8],
    smallest: &mut [u64],
    blocks: &mut [u64],
) -> HutRecovered
    ensures { recovery_is (sizes result.answer result.leaves result.entries) smallest.new blocks.new
        ≡ recovery_of image.now smallest.old blocks.old }
{
    reading::hut_recovery(image, smallest, blocks)
}

#[unsafe(no_mangle)]
pub extern "C" fn hut_run(image: &mut [u8], list: &[u64], n: u64) -> u64
    ensures { (result ≡ (run_of image.old list.now n).answer)
        × (image.new ≡ (run_of image.old list.now n).image) }
{
    taking::hut_run(image, list, n)
}

#[unsafe(no_mangle)]
pub extern "C" fn hut_cut(image: &mut [u8], list: &[u64], n: u64, arrivals: &[u64]) -> u64
    ensures { (result ≡ (cut_of image.old list.now n arrivals.now).answer)
        × (image.new ≡ (cut_of image.old list.now n arrivals.now).image) }
{
    taking::hut_cut(image, list, n, arrivals)
}
