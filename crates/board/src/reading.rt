// The calls that read an image.
ghost use Rattle.std.specs.Prelude.{◌≡◌};
ghost use Rattle.index.specs.Reading.{told, find_of};
ghost use Rattle.index.specs.Reading.{counted, listing_is, listing_of};
ghost use Rattle.index.specs.Reading.{sizes, recovery_is, recovery_of};

use index::find::find;
use index::listing::listing;
use index::recovery::recovery;
use told::reading::{HutFound, HutListed, HutRecovered};

pub fn hut_find(image: &[u8], key: u64) -> HutFound
    ensures { told result.answer result.value ≡ find_of image.now key }
{
    HutFound::from(find(image, key))
}

pub fn hut_listing(image: &[u8], from: u64, keys: &mut [u64], values: &mut [u64]) -> HutListed
    ensures { listing_is (counted result.answer result.count) keys.new values.new
        ≡ listing_of image.now from keys.old values.old }
{
    HutListed::from(listing(image, from, keys, values))
}

pub fn hut_recovery(image: &[u8], smallest: &mut [u64], blocks: &mut [u64]) -> HutRecovered
    ensures { recovery_is (sizes result.answer result.leaves result.entries) smallest.new blocks.new
        ≡ recovery_of image.now smallest.old blocks.old }
{
    HutRecovered::from(recovery(image, smallest, blocks))
}
