// The exports meet the contracts of the C interface, as the calls of `board` do in `contracts`.
use crate::{hut_cut, hut_del, hut_find, hut_listing, hut_put, hut_recovery, hut_run, hut_set};
use contracts::outside::Interface;
use told::making::HutMade;
use told::reading::{HutFound, HutListed, HutRecovered};

pub struct Exports;

impl Interface for Exports {
    fn find(image: &[u8], key: u64) -> HutFound {
        hut_find(image, key)
    }

    fn listing(image: &[u8], from: u64, keys: &mut [u64], values: &mut [u64]) -> HutListed {
        hut_listing(image, from, keys, values)
    }

    fn recovery(image: &[u8], smallest: &mut [u64], blocks: &mut [u64]) -> HutRecovered {
        hut_recovery(image, smallest, blocks)
    }

    fn put(image: &[u8], list: &mut [u64], key: u64, value: u64) -> HutMade {
        hut_put(image, list, key, value)
    }

    fn set(image: &[u8], list: &mut [u64], key: u64, value: u64) -> HutMade {
        hut_set(image, list, key, value)
    }

    fn del(image: &[u8], list: &mut [u64], key: u64) -> HutMade {
        hut_del(image, list, key)
    }

    fn run(image: &mut [u8], list: &[u64], n: u64) -> u64 {
        hut_run(image, list, n)
    }

    fn cut(image: &mut [u8], list: &[u64], n: u64, arrivals: &[u64]) -> u64 {
        hut_cut(image, list, n, arrivals)
    }
}
