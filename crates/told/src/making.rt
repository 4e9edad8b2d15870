// The answer of the calls that write a list of steps.
ghost use Rattle.std.specs.Prelude.{◌≡◌, []};
ghost use Rattle.writing.specs.Writing.{made_as};

use steps::Refusal;
use writing::Made;

#[repr(C)]
#[derive(Clone, Copy)]
pub struct HutMade {
    pub answer: u64,
    pub steps: u64,
    pub line_writes: u64,
    pub word_writes: u64,
}

impl From<Result<Made, Refusal>> for HutMade {
    ghost from_gives = { λ made told. (told.answer ≡ (made_as made []).answer) × (told.steps ≡ (made_as made []).steps)
        × (told.line_writes ≡ (made_as made []).lines) × (told.word_writes ≡ (made_as made []).words) };

    fn from(made: Result<Made, Refusal>) -> HutMade {
        match made {
            Ok(made) => HutMade {
                answer: 0,
                steps: made.steps,
                line_writes: made.line_writes.0,
                word_writes: made.word_writes.0,
            },
            Err(refusal) => HutMade {
                answer: u64::from(refusal),
                steps: 0,
                line_writes: 0,
                word_writes: 0,
            },
        }
    }
}
