// What a call answers, by what came of its work.
ghost use Rattle.std.specs.Prelude.{◌≡◌};
ghost use Rattle.checks.specs.Told.{told, told_place};
ghost use Rattle.coder.specs.Told.{told_element};

use checks::refusal::Refusal;
use coder_theory::{Answer, ElementAnswer};

// Place 0, since none is told.
pub(crate) fn done(work: Result<(), Refusal>) -> Answer
    ensures { result ≡ told work }
{
    match work {
        Ok(()) => Answer {
            refusal: 0,
            place: 0,
        },
        Err(x) => Answer::from(x),
    }
}

// The place that was told.
pub(crate) fn place(work: Result<u32, Refusal>) -> Answer
    ensures { result ≡ told_place work }
{
    match work {
        Ok(place) => Answer { refusal: 0, place },
        Err(x) => Answer::from(x),
    }
}

// The number of an element.
pub(crate) fn element(work: Result<u32, Refusal>) -> ElementAnswer
    ensures { result ≡ told_element work }
{
    match work {
        Ok(element) => ElementAnswer {
            refusal: 0,
            place: 0,
            element,
        },
        Err(x) => ElementAnswer {
            refusal: x.number(),
            place: x.place(),
            element: 0,
        },
    }
}
