// The calls that make lists of steps.
#![tactic(auto)]

mod alike;
mod block;
pub mod change;
pub mod put;

ghost use Rattle.std.specs.Prelude.{◌≡◌, ◌+◌, ◌-◌, ◌≤◌};
ghost use Rattle.writing.specs.PutCounts.{counts};

use steps::{LineWrites, WordWrites};

// What put, set and del tell of the list made: the steps, and the line writes and the word writes among them.
#[derive(Clone, Copy)]
pub struct Made {
    pub steps: u64,
    pub line_writes: LineWrites,
    pub word_writes: WordWrites,
}

impl Made {
    // Steps that are no line writes and no fences are word writes.
    fn of(steps: u64, lines: u64, fences: u64) -> Made
        requires { lines + fences ≤ steps }
        ensures { result ≡ counts steps lines (steps - (lines + fences)) }
    {
        Made {
            steps,
            line_writes: LineWrites(lines),
            word_writes: WordWrites(steps - (lines + fences)),
        }
    }
}
