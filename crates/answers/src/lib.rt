// What the calls of both engines answer: what they came to, or the refusal.
#![tactic(auto)]

ghost use Rattle.std.specs.Prelude.{◌≡◌, ◌<◌};
ghost use Rattle.calls.specs.Refusals.{refusal_number};
ghost use Rattle.answers.specs.Answers.{refusal_of};

#[derive(Clone, Copy, PartialEq, Eq)]
pub enum Refusal {
    BadNumbers,
    BadLength,
    NotSound,
    OutOfRange,
    BadBatch,
    NoFreeBlock,
    NotNamed,
    NothingToGain,
}

// Where a flush's pages went: the first, and how many.
#[derive(Clone, Copy, PartialEq, Eq)]
pub struct Flushed {
    pub first: u32,
    pub count: u32,
}

// Where a logical page is found: the page, the predicted page and how many levels were looked at.
#[derive(Clone, Copy, PartialEq, Eq)]
pub struct Found {
    pub page: u32,
    pub predicted: u32,
    pub levels: u32,
}

// Not written: with the number of levels.
#[derive(Clone, Copy, PartialEq, Eq)]
pub enum Looked {
    Found(Found),
    NotWritten(u32),
}

// Where the moved pages went, the first and how many, and how many blocks were erased.
#[derive(Clone, Copy, PartialEq, Eq)]
pub struct Collected {
    pub first: u32,
    pub count: u32,
    pub erased: u32,
}

// Document 01's number of a refusal, which four bits hold.
impl From<Refusal> for u32 {
    ghost from_gives = { λ r n. (n ≡ refusal_number (refusal_of r)) × (n < 16) };

    #[tactic(auto, unfolding(calls::specs::Refusals::refusal_number, crate::specs::Answers::refusal_of))]
    fn from(r: Refusal) -> u32 {
        match r {
            Refusal::BadNumbers => 1,
            Refusal::BadLength => 2,
            Refusal::NotSound => 3,
            Refusal::OutOfRange => 4,
            Refusal::BadBatch => 5,
            Refusal::NoFreeBlock => 6,
            Refusal::NotNamed => 7,
            Refusal::NothingToGain => 8,
        }
    }
}
