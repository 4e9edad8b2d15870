// The conditions of the refusals 1, 7 and 10.
ghost use Rattle.std.specs.Prelude.{◌≡◌, ◌*◌, ◌≤◌, length};
ghost use Rattle.words.specs.Below.{any_below};
ghost use Rattle.steps.specs.Refusals.{Checks, bad_image};
ghost use Rattle.machine.specs.Taking.{malformed, bad_list, arrived, bad_arrivals};
ghost use Rattle.machine.specs.Fits.{Passed, Taken};
ghost use Rattle.machine.specs.Lost.{is_above, lost_by, lost};

use crate::counts::{count_at, count_store, last_fence, mark_backs, tally};
use crate::list::{formed_at, step_at};
use steps::{Refusal, Step};

#[tactic(auto, unfolding(steps::specs::Refusals::bad_image))]
pub fn bad_image(size: u64) -> bool
    ensures { result ≡ bad_image size }
{
    size == 0 || 65536 < size || size % 256 != 0
}

// Refusal 1.
pub fn check_image(size: u64) -> Result<(), Refusal>
    ensures { Checks (bad_image size) Refusal.BadImage result }
{
    if bad_image(size) {
        return Err(Refusal::BadImage);
    }
    Ok(())
}

fn any_malformed(size: u64, list: &[u64], n: usize) -> bool
    requires { 2 * n ≤ length list.now }
    ensures { result ≡ any_below (malformed size list.now) n }
{
    (0..n).any(|i| !formed_at(size, list, i))
}

// Refusal 7. n is tested before 2n is formed, and words behind the first n steps are not looked at.
#[tactic(auto, unfolding(crate::specs::Taking::bad_list))]
pub fn check_list(size: u64, list: &[u64], n: usize) -> Result<(), Refusal>
    ensures { Checks (bad_list size list.now n) Refusal.BadList result }
{
    if 56 < n || list.len() < 2 * n || any_malformed(size, list, n) {
        return Err(Refusal::BadList);
    }
    Ok(())
}

// How many stores of a line arrived; none where the list of arrivals has no such line.
pub fn arrived_of(arrivals: &[u64], l: u64) -> u64
    ensures { result ≡ arrived arrivals.now l }
{
    arrivals.get(l as usize).copied().unwrap_or(0)
}

// Is the number of a line above its made stores? One pass over the arrivals.
#[tactic(auto, unfolding(words::specs::Below::any_below))]
fn exceeds_made(list: &[u64], n: usize, arrivals: &[u64]) -> bool
    requires { Taken list.now n × (length arrivals.now ≤ 1024) }
    ensures { result ≡ any_below (is_above list.now n arrivals.now) (length arrivals.now) }
{
    let mut made = [0u8; 1024];
    tally(&mut made, list, n);
    for (l, arrived) in arrivals.iter().enumerate() {
        if count_at(&made, l as u64) < *arrived {
            return true;
        }
    }
    false
}

// Is the step, which is before the last fence, a store that did not arrive though its line had a write-back before that fence?
fn is_lost(step: Step, backs: &[u8; 1024], seen: &[u8; 1024], arrivals: &[u64]) -> bool
    ensures { result ≡ lost_by backs.now seen.now arrivals.now step }
{
    if let Step::Store(p, _) = step {
        let l = p / 8;
        return count_at(backs, l) != 0 && arrived_of(arrivals, l) <= count_at(seen, l);
    }
    false
}

// Is the number of a line below its settled stores: are there settled stores that did not arrive?
fn misses_settled(list: &[u64], n: usize, arrivals: &[u64]) -> bool
    requires { Taken list.now n }
    ensures { result ≡ lost list.now n arrivals.now }
{
    let last = last_fence(list, n);
    let mut backs = [0u8; 1024];
    mark_backs(&mut backs, list, last);
    let mut seen = [0u8; 1024];
    for i in 0..last {
        let step = step_at(list, i);
        if is_lost(step, &backs, &seen, arrivals) {
            return true;
        }
        count_store(&mut seen, step);
    }
    false
}

// Refusal 10, of a list that has passed 1 and 7.
pub fn check_arrivals(size: u64, list: &[u64], n: usize, arrivals: &[u64]) -> Result<(), Refusal>
    requires { Passed size list.now n }
    ensures { Checks (bad_arrivals size list.now n arrivals.now) Refusal.BadArrivals result }
{
    if arrivals.len() as u64 != size / 64
        || exceeds_made(list, n, arrivals)
        || misses_settled(list, n, arrivals)
    {
        return Err(Refusal::BadArrivals);
    }
    Ok(())
}
