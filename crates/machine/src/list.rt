// A list's words and its steps: two words a step.
ghost use Rattle.std.specs.Prelude.{◌≡◌, ◌+◌, ◌*◌, ◌^◌, ◌≤◌, ◌<◌, length};
ghost use Rattle.steps.specs.Encoding.{first, second, in_image, decode, well_formed, step_at, formed_at, put_step};

use steps::Step;

// "A write-back has 2^32 plus the number of a line (..), and 0; a fence has 2^33 and 0."
const WRITE_BACK: u64 = 4294967296;

const FENCE: u64 = 8589934592;

// The step of two words, which for a malformed pair means nothing.
#[tactic(auto, unfolding(steps::specs::Encoding::decode))]
pub fn step_of(a: u64, b: u64) -> Step
    ensures { result ≡ decode a b }
{
    if a < WRITE_BACK {
        return Step::Store(a / 8, b);
    }
    if a < FENCE {
        return Step::WriteBack(a - WRITE_BACK);
    }
    Step::Fence
}

pub fn second_word(step: Step) -> u64
    ensures { result ≡ second step }
{
    if let Step::Store(_, v) = step { v } else { 0 }
}

// The two words of a step. The first has to fit.
pub fn words_of(step: Step) -> (u64, u64)
    requires { first step < 2 ^ 64 }
    ensures { (result.0 ≡ first step) × (result.1 ≡ second step) }
{
    let first = match step {
        Step::Store(p, _) => 8 * p,
        Step::WriteBack(k) => WRITE_BACK + k,
        Step::Fence => FENCE,
    };
    (first, second_word(step))
}

// Is the step's word, or its line, one of an image of so many bytes?
pub fn in_image(size: u64, step: Step) -> bool
    requires { first step < 2 ^ 64 }
    ensures { result ≡ in_image size step }
{
    match step {
        Step::Store(p, _) => 8 * p < size,
        Step::WriteBack(k) => k < size / 64,
        Step::Fence => true,
    }
}

// Are the two words those of a step of the image?
#[tactic(auto, using(steps::proofs::EncodingLaws::first_small))]
pub fn well_formed(size: u64, a: u64, b: u64) -> bool
    ensures { result ≡ well_formed size a b }
{
    let step = step_of(a, b);
    in_image(size, step) && words_of(step) == (a, b)
}

// Step i of a list.
pub fn step_at(list: &[u64], i: usize) -> Step
    requires { 2 * i + 2 ≤ length list.now }
    ensures { result ≡ step_at list.now i }
{
    step_of(list[2 * i], list[2 * i + 1])
}

pub fn formed_at(size: u64, list: &[u64], i: usize) -> bool
    requires { 2 * i + 2 ≤ length list.now }
    ensures { result ≡ formed_at size list.now i }
{
    well_formed(size, list[2 * i], list[2 * i + 1])
}

// Writes step i of a list: what every list is written with.
pub fn put_step(list: &mut [u64], i: usize, step: Step)
    requires { (2 * i + 2 ≤ length list.old) × (first step < 2 ^ 64) }
    ensures { list.new ≡ put_step list.old i step }
{
    (list[2 * i], list[2 * i + 1]) = words_of(step);
}
