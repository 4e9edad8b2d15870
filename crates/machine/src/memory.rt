// The steps taken over an image.
ghost use Rattle.std.specs.Prelude.{◌≡◌, length};
ghost use Rattle.steps.specs.Model.{line, arrives, land, run, cut};
ghost use Rattle.steps.specs.Encoding.{step_at};
ghost use Rattle.machine.specs.Taking.{store_word, arrived};
ghost use Rattle.machine.specs.Fits.{Fits, Passed};

use crate::counts::{count_at, count_store};
use crate::list::step_at;
use crate::refusals::arrived_of;
use steps::Step;

// The image after a step that arrives or does not.
fn take_step(image: &mut [u8], arrive: bool, step: Step)
    requires { Fits (length image.old) step }
    ensures { image.new ≡ land store_word arrive step image.old }
{
    if let Step::Store(p, v) = step {
        if arrive {
            words::set_word(image, (8 * p) as usize, v);
        }
    }
}

#[tactic(auto, using(crate::proofs::Fits::all_fit))]
pub fn run_steps(image: &mut [u8], list: &[u64], n: usize)
    requires { Passed (length image.old) list.now n }
    ensures { image.new ≡ run store_word (step_at list.now) image.old n }
{
    for i in 0..n {
        take_step(image, true, step_at(list, i));
    }
}

// Does a step arrive? A store does where fewer were made to its line before it than arrived.
fn arrives_now(step: Step, seen: &[u8; 1024], arrivals: &[u64]) -> bool
    ensures { result ≡ arrives line (arrived arrivals.now) (arrived seen.now) step }
{
    if let Step::Store(p, _) = step {
        return count_at(seen, p / 8) < arrived_of(arrivals, p / 8);
    }
    true
}

pub fn cut_steps(image: &mut [u8], list: &[u64], n: usize, arrivals: &[u64])
    requires { Passed (length image.old) list.now n }
    ensures { image.new
        ≡ cut store_word line (step_at list.now) (arrived arrivals.now) image.old n }
{
    let mut seen = [0u8; 1024];
    for i in 0..n {
        let step = step_at(list, i);
        take_step(image, arrives_now(step, &seen, arrivals), step);
        count_store(&mut seen, step);
    }
}
