// The answers of the calls that read, as C has them: document 01's numbers, 0 where there is nothing to tell.
ghost use Rattle.std.specs.Prelude.{◌≡◌};
ghost use Rattle.index.specs.Reading.{found_as, listed_as, recovered_as};

use index::recovery::Recovered;
use steps::Refusal;

#[repr(C)]
#[derive(Clone, Copy)]
pub struct HutFound {
    pub answer: u64,
    pub value: u64,
}

impl From<Result<u64, Refusal>> for HutFound {
    ghost from_gives = { λ found told. (told.answer ≡ (found_as found).answer) × (told.value ≡ (found_as found).value) };

    fn from(found: Result<u64, Refusal>) -> HutFound {
        match found {
            Ok(value) => HutFound { answer: 0, value },
            Err(refusal) => HutFound {
                answer: u64::from(refusal),
                value: 0,
            },
        }
    }
}

#[repr(C)]
#[derive(Clone, Copy)]
pub struct HutListed {
    pub answer: u64,
    pub count: u64,
}

impl From<Result<u64, Refusal>> for HutListed {
    ghost from_gives = { λ listed told. (told.answer ≡ (listed_as listed).answer) × (told.count ≡ (listed_as listed).count) };

    fn from(listed: Result<u64, Refusal>) -> HutListed {
        match listed {
            Ok(count) => HutListed { answer: 0, count },
            Err(refusal) => HutListed {
                answer: u64::from(refusal),
                count: 0,
            },
        }
    }
}

#[repr(C)]
#[derive(Clone, Copy)]
pub struct HutRecovered {
    pub answer: u64,
    pub leaves: u64,
    pub entries: u64,
}

impl From<Result<Recovered, Refusal>> for HutRecovered {
    ghost from_gives = { λ recovered told. (told.answer ≡ (recovered_as recovered).answer)
        × (told.leaves ≡ (recovered_as recovered).leaves) × (told.entries ≡ (recovered_as recovered).entries) };

    fn from(recovered: Result<Recovered, Refusal>) -> HutRecovered {
        match recovered {
            Ok(Recovered { leaves, entries }) => HutRecovered {
                answer: 0,
                leaves,
                entries,
            },
            Err(refusal) => HutRecovered {
                answer: u64::from(refusal),
                leaves: 0,
                entries: 0,
            },
        }
    }
}
