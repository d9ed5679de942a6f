// Why a call is refused.
ghost use Rattle.std.specs.Prelude.{◌≡◌};
ghost use Rattle.checks.specs.Told.{number_of, place_of, refused};

use coder_theory::Answer;

// Each reason in document 01's words, 10 and 11 in those of request C-17, 24 in those of request C-20.
#[derive(Clone, Copy, PartialEq, Eq, Debug)]
pub enum Refusal {
    // "1. Parameters not admitted (opening, C calls, sheet)."
    NotAdmitted,
    // "2. A read word or message not of its exact length, an empty one too."
    WrongLength,
    // "3. An output buffer shorter than needed."
    ShortOutput,
    // "4. A byte above 1; the lowest such place is given with it"
    BadByte(u32),
    // "5. A place outside 1 to n.", n − s in a shortened code
    Outside,
    // "6. Two equal places."
    EqualPlaces,
    // 10: "an s that is not allowed"
    NotAllowed,
    // 11: "a correction or third place that would fall in a left-out place"
    LeftOut,
    // "21. The record is closed."
    Closed,
    // "22. The record has parameters that are not admitted, r = 0, or words that differ from the sum of the other counts as whole numbers."
    Unfit,
    // "23. Words is at 4,294,967,295 (correction only).", of a commit too
    Full,
    // 24: "a commit whose place .. is not the one that asking would give"
    NotAsked,
}

impl Refusal {
    pub fn number(self) -> u32
        ensures { result ≡ number_of self }
    {
        match self {
            Refusal::NotAdmitted => 1,
            Refusal::WrongLength => 2,
            Refusal::ShortOutput => 3,
            Refusal::BadByte(_) => 4,
            Refusal::Outside => 5,
            Refusal::EqualPlaces => 6,
            Refusal::NotAllowed => 10,
            Refusal::LeftOut => 11,
            Refusal::Closed => 21,
            Refusal::Unfit => 22,
            Refusal::Full => 23,
            Refusal::NotAsked => 24,
        }
    }

    // The place that is told with it: 0 but for a byte above 1.
    pub fn place(self) -> u32
        ensures { result ≡ place_of self }
    {
        match self {
            Refusal::BadByte(place) => place,
            _ => 0,
        }
    }
}

impl From<Refusal> for Answer {
    ghost from_gives = { λ x a. a ≡ refused x };

    fn from(x: Refusal) -> Answer {
        Answer {
            refusal: x.number(),
            place: x.place(),
        }
    }
}
