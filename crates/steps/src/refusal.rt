// Why a call is refused: document 01's table, but for 9, which the bench program answers to a malformed line.
ghost use Rattle.std.specs.Prelude.{◌≡◌};
ghost use Rattle.steps.specs.Refusals.{number_of};

#[derive(Clone, Copy, Debug, PartialEq, Eq)]
pub enum Refusal {
    BadImage,
    ShortList,
    Unsound,
    Present,
    Absent,
    Full,
    BadList,
    ShortBuffer,
    BadArrivals,
}

// Document 01's number.
impl From<Refusal> for u64 {
    ghost from_gives = { λ refusal number. number ≡ number_of refusal };

    fn from(refusal: Refusal) -> u64 {
        match refusal {
            Refusal::BadImage => 1,
            Refusal::ShortList => 2,
            Refusal::Unsound => 3,
            Refusal::Present => 4,
            Refusal::Absent => 5,
            Refusal::Full => 6,
            Refusal::BadList => 7,
            Refusal::ShortBuffer => 8,
            Refusal::BadArrivals => 10,
        }
    }
}
