// The calls that take steps.
ghost use Rattle.std.specs.Prelude.{◌≡◌};
ghost use Rattle.machine.specs.Taking.{run_of, cut_of};

use machine::{cut, ran_as, run};

pub fn hut_run(image: &mut [u8], list: &[u64], n: u64) -> u64
    ensures { (result ≡ (run_of image.old list.now n).answer)
        × (image.new ≡ (run_of image.old list.now n).image) }
{
    ran_as(run(image, list, n as usize))
}

pub fn hut_cut(image: &mut [u8], list: &[u64], n: u64, arrivals: &[u64]) -> u64
    ensures { (result ≡ (cut_of image.old list.now n arrivals.now).answer)
        × (image.new ≡ (cut_of image.old list.now n arrivals.now).image) }
{
    ran_as(cut(image, list, n as usize, arrivals))
}
