// What is counted while steps are taken: the last fence, and for each line the stores made and whether it had a
// write-back. A table has a byte for each line, since a list has at most 56 steps.
ghost use Rattle.std.specs.Prelude.{◌≡◌, ◌*◌, ◌≤◌, length, get_or};
ghost use Rattle.steps.specs.Encoding.{step_at};
ghost use Rattle.steps.specs.LastFence.{last_fence};
ghost use Rattle.machine.specs.Fits.{Taken};
ghost use Rattle.machine.specs.Tables.{counted, marked, Zero, Tally, Backs, AtMost};

use crate::list::step_at;
use steps::Step;

// The last fence of the first n steps, or 0.
pub fn last_fence(list: &[u64], n: usize) -> usize
    requires { 2 * n ≤ length list.now }
    ensures is { result ≡ last_fence (step_at list.now) n }
    ensures inside { result ≤ n }
{
    let mut last = 0;
    for i in 0..n {
        if let Step::Fence = step_at(list, i) {
            last = i;
        }
    }
    last
}

// What a table has for a line; 0 where it has no such line.
pub fn count_at(table: &[u8; 1024], l: u64) -> u64
    ensures { result ≡ get_or table.now l 0 }
{
    table.get(l as usize).map_or(0, |count| u64::from(*count))
}

pub fn count_store(table: &mut [u8; 1024], step: Step)
    requires { AtMost 254 table.old }
    ensures { table.new ≡ counted step table.old }
{
    if let Step::Store(p, _) = step {
        let l = (p / 8) as usize;
        if l < table.len() {
            table[l] += 1;
        }
    }
}

fn mark_back(table: &mut [u8; 1024], step: Step)
    ensures { table.new ≡ marked step table.old }
{
    if let Step::WriteBack(k) = step {
        let l = k as usize;
        if l < table.len() {
            table[l] = 1;
        }
    }
}

// The stores made to each line in the first n steps.
pub fn tally(made: &mut [u8; 1024], list: &[u64], n: usize)
    requires { Taken list.now n × Zero made.old }
    ensures { Tally (step_at list.now) n made.new }
{
    for i in 0..n {
        count_store(made, step_at(list, i));
    }
}

// The lines that had a write-back in the first n steps.
pub fn mark_backs(backs: &mut [u8; 1024], list: &[u64], n: usize)
    requires { (2 * n ≤ length list.now) × Zero backs.old }
    ensures { Backs (step_at list.now) n backs.new }
{
    for i in 0..n {
        mark_back(backs, step_at(list, i));
    }
}
