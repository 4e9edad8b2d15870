// Run and cut: the first n steps of a list taken over a lent image, as the processor sees it and as the memory holds it.
#![tactic(auto)]

mod counts;
pub mod list;
mod memory;
mod refusals;

ghost use Rattle.std.specs.Prelude.{◌≡◌};
ghost use Rattle.machine.specs.Taking.{ran_as, run_of, cut_of};

use crate::memory::{cut_steps, run_steps};
pub use crate::refusals::{bad_image, check_image};
use crate::refusals::{check_arrivals, check_list};
use steps::Refusal;

// Document 01's number of what run and cut answer.
pub fn ran_as(ran: Result<(), Refusal>) -> u64
    ensures { result ≡ ran_as ran }
{
    match ran {
        Ok(_) => 0,
        Err(refusal) => u64::from(refusal),
    }
}

// "Run takes the first n steps of a list over an image as the processor sees it."
#[tactic(auto, using(crate::proofs::Fits::passed))]
pub fn run(image: &mut [u8], list: &[u64], n: usize) -> Result<(), Refusal>
    ensures { (ran_as result ≡ (run_of image.old list.now n).answer)
        × (image.new ≡ (run_of image.old list.now n).image) }
{
    let size = image.len() as u64;
    check_image(size)?;
    check_list(size, list, n)?;
    run_steps(image, list, n);
    Ok(())
}

// "Cut does the same as the memory holds it, given for each line how many of its stores in the first n steps arrived."
#[tactic(auto, using(crate::proofs::Fits::passed))]
pub fn cut(image: &mut [u8], list: &[u64], n: usize, arrivals: &[u64]) -> Result<(), Refusal>
    ensures { (ran_as result ≡ (cut_of image.old list.now n arrivals.now).answer)
        × (image.new ≡ (cut_of image.old list.now n arrivals.now).image) }
{
    let size = image.len() as u64;
    check_image(size)?;
    check_list(size, list, n)?;
    check_arrivals(size, list, n, arrivals)?;
    cut_steps(image, list, n, arrivals);
    Ok(())
}
