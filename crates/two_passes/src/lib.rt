// Correction as it was before request C-14: one pass over the word for bytes above 1, another for the
// syndrome. Only the benchmark uses it, which times it beside `coder::correct`. Every input is answered,
// and the contract is that of `coder::correct`. What is wrong with a call is found by crate checks, and in the bytes
// by bytes.rt; shorter.rt finds the place at fault, by whole.rt and what is named there; the flip is crate coding's;
// count.rt counts. Bytes, syndrome, filling, the other half of a place and the counts stand here in their own text, though
// crates coding, places and checks have the like: they are what is measured. Place 0 for none is document 01's own number,
// and so `fault_for`'s.
#![tactic(auto)]

mod bytes;
mod check_part;
mod count;
mod fill;
mod halves;
mod place;
mod shorter;
mod weights;
mod whole;

ghost use Rattle.std.specs.Prelude.{◌≡◌};
ghost use Rattle.coder_theory.specs.State.{counted};
ghost use Rattle.coder_theory.specs.Calls.{correct_answer, correct_output};
ghost use Rattle.checks.specs.Told.{told_counted};

use checks::refusal::Refusal;
use checks::{check, fit};
pub use coder_theory::{Corrected, Record};

// The codeword that differs from a word in at most one place, at the front of `out`, and that place.
// Refused with 21, 22, 10, 2, 3, 4, 11, where there is none, and 23.
pub fn correct(record: Record, word: &[u8], out: &mut [u8]) -> Corrected
    ensures answer { result ≡ correct_answer «record» word.now out.old }
    ensures bytes { out.new ≡ correct_output «record» word.now out.old }
{
    match corrected(record, word, out) {
        Ok(place) => Corrected {
            refusal: 0,
            place,
            record: count::counted(record, place),
        },
        Err(x) => Corrected {
            refusal: x.number(),
            place: x.place(),
            record,
        },
    }
}

// Writes the codeword, and answers the place that was flipped.
fn corrected(record: Record, word: &[u8], out: &mut [u8]) -> Result<u32, Refusal>
    ensures answer { told_counted counted «record» result ≡ correct_answer «record» word.now out.old }
    ensures bytes { out.new ≡ correct_output «record» word.now out.old }
{
    bytes::written(record, word, out.len())?;
    let q = shorter::fault(fit::code(record), word);
    check::correction(record, q)?;
    let p = q.saturating_sub(record.s);
    coding::flip(word, p, out);
    Ok(p)
}
