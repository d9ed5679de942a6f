// Whether a record is usable, that is, open, fit and with an allowed s; its code, and the lengths that it fixes.
ghost use Rattle.std.specs.Prelude.{◌≡◌, IfOk};
ghost use Rattle.coder_theory.specs.State.{is_unfit, places_in, message_in};
ghost use Rattle.coder_theory.specs.Reasons.{first_reason};
ghost use Rattle.coder_theory.specs.Calls.{answer_of, state_reasons, word_length, message_length};
ghost use Rattle.checks.specs.Told.{told};
ghost use Rattle.checks.specs.Counts.{code_in};

use crate::refusal::Refusal;
use coder_theory::{Record, Size};
use parameters::Code;

// The code of a record.
pub fn code(record: Record) -> Code
    ensures { result ≡ code_in «record» }
{
    Code {
        t: record.t,
        r: record.r,
        s: record.s,
    }
}

// 21 where the record is closed, 22 where it is unfit, 10 where its s is not allowed.
#[tactic(auto, unfolding(coder_theory::specs::Reasons::first_reason, coder_theory::specs::State::is_unfit, shortened_theory::specs::Calls::allowed_for))]
pub fn state(record: Record) -> Result<(), Refusal>
    ensures { told result ≡ answer_of (first_reason (state_reasons «record»)) }
{
    if record.t == 0 {
        return Err(Refusal::Closed);
    }
    if unfit(record) {
        return Err(Refusal::Unfit);
    }
    if !code(record).allowed() {
        return Err(Refusal::NotAllowed);
    }
    Ok(())
}

// Whether an open record is unfit; the counts are summed as whole numbers.
#[tactic(auto, unfolding(coder_theory::specs::State::is_unfit))]
fn unfit(record: Record) -> bool
    ensures { result ≡ is_unfit «record» }
{
    let clean = u64::from(record.clean);
    let binary = u64::from(record.corrected_binary);
    let pairs = u64::from(record.corrected_pairs);
    !parameters::admitted(record.t, record.r)
        || record.r == 0
        || u64::from(record.words) != clean + binary + pairs
}

// The lengths of a usable record: 21, 22 and 10.
pub fn usable(record: Record) -> Result<Size, Refusal>
    ensures answer { told result ≡ answer_of (first_reason (state_reasons «record»)) }
    ensures size { IfOk result (λ k. (k.places ≡ places_in «record») × (k.message ≡ message_in «record»)) }
{
    state(record)?;
    let shape = code(record).shape();
    Ok(Size {
        places: shape.places - record.s,
        message: shape.message - record.s,
    })
}

// The lengths of a usable record; any other has none.
#[tactic(auto, unfolding(coder_theory::specs::Reasons::first_reason, coder_theory::specs::Calls::word_length, coder_theory::specs::Calls::message_length))]
pub fn lengths(record: Record) -> Size
    ensures { (result.places ≡ word_length «record») × (result.message ≡ message_length «record») }
{
    let none = Size {
        places: 0,
        message: 0,
    };
    usable(record).unwrap_or(none)
}
