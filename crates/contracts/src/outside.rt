// The contracts of the C interface, stated once: whatever stands behind its eight calls has to meet them.
ghost use Rattle.demands.specs.Calls as asked;
ghost use Rattle.demands.specs.UniqueOutside.{Outside};

use board::making::{hut_del, hut_put, hut_set};
use board::reading::{hut_find, hut_listing, hut_recovery};
use board::taking::{hut_cut, hut_run};
use told::making::HutMade;
use told::reading::{HutFound, HutListed, HutRecovered};

pub trait Interface {
    fn find(image: &[u8], key: u64) -> HutFound
        ensures { Outside (asked.find image.now key) result };

    fn listing(image: &[u8], from: u64, keys: &mut [u64], values: &mut [u64]) -> HutListed
        ensures { Outside (asked.listing image.now from keys.old values.old)
            (result, keys.new, values.new) };

    fn recovery(image: &[u8], smallest: &mut [u64], blocks: &mut [u64]) -> HutRecovered
        ensures { Outside (asked.recovery image.now smallest.old blocks.old)
            (result, smallest.new, blocks.new) };

    fn put(image: &[u8], list: &mut [u64], key: u64, value: u64) -> HutMade
        ensures { Outside (asked.put image.now list.old key value) (result, list.new) };

    fn set(image: &[u8], list: &mut [u64], key: u64, value: u64) -> HutMade
        ensures { Outside (asked.set image.now list.old key value) (result, list.new) };

    fn del(image: &[u8], list: &mut [u64], key: u64) -> HutMade
        ensures { Outside (asked.del image.now list.old key) (result, list.new) };

    fn run(image: &mut [u8], list: &[u64], n: u64) -> u64
        ensures { Outside (asked.run image.old list.now n) (result, image.new) };

    fn cut(image: &mut [u8], list: &[u64], n: u64, arrivals: &[u64]) -> u64
        ensures { Outside (asked.cut image.old list.now n arrivals.now) (result, image.new) };
}

// The calls of `board`. `board_c` has the same for its exports.
pub struct Board;

impl Interface for Board {
    fn find(image: &[u8], key: u64) -> HutFound {
        hut_find(image, key)
    }

    fn listing(image: &[u8], from: u64, keys: &mut [u64], values: &mut [u64]) -> HutListed {
        hut_listing(image, from, keys, values)
    }

    fn recovery(image: &[u8], smallest: &mut [u64], blocks: &mut [u64]) -> HutRecovered {
        hut_recovery(image, smallest, blocks)
    }

    fn put(image: &[u8], list: &mut [u64], key: u64, value: u64) -> HutMade {
        hut_put(image, list, key, value)
    }

    fn set(image: &[u8], list: &mut [u64], key: u64, value: u64) -> HutMade {
        hut_set(image, list, key, value)
    }

    fn del(image: &[u8], list: &mut [u64], key: u64) -> HutMade {
        hut_del(image, list, key)
    }

    fn run(image: &mut [u8], list: &[u64], n: u64) -> u64 {
        hut_run(image, list, n)
    }

    fn cut(image: &mut [u8], list: &[u64], n: u64, arrivals: &[u64]) -> u64 {
        hut_cut(image, list, n, arrivals)
    }
}
