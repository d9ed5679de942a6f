// The counts of a record: an accepted correction or commit adds one to words and to one of the other three.
ghost use Rattle.std.specs.Prelude.{◌≡◌, ◌≢◌, IfOk};
ghost use Rattle.coder_theory.specs.State.{Usable, full_count, counted};
ghost use Rattle.checks.specs.Counts.{counted_for};
ghost use Rattle.checks.specs.Told.{told_counted};

use crate::fit;
use crate::refusal::Refusal;
use coder_theory::{Corrected, Record};

// The record after an accepted correction that told a place. Of a usable record that is not full no count is full, since
// each is at most their sum; of any other a full one stays.
#[tactic(auto, unfolding(crate::specs::Counts::counted_for))]
pub fn counted(record: Record, place: u32) -> Record
    ensures any { result ≡ counted_for «record» place }
    ensures usable { Usable «record» × («record».words ≢ full_count) → result ≡ counted «record» place }
{
    let width = shortened::width(fit::code(record), place);
    Record {
        words: record.words.saturating_add(1),
        clean: record.clean.saturating_add(u32::from(place == 0)),
        corrected_binary: record
            .corrected_binary
            .saturating_add(u32::from(width == 1)),
        corrected_pairs: record.corrected_pairs.saturating_add(u32::from(width == 2)),
        ..record
    }
}

// What a call that corrects answers: the place that was changed, and the record with it counted. `coder::correct` and
// `coder::commit` say it each in place, where the Result need not go through memory; this is for calls to come.
pub fn change(record: Record, work: Result<u32, Refusal>) -> Corrected
    ensures any { result ≡ told_counted counted_for «record» work }
    ensures usable { IfOk work (λ p. Usable «record» × («record».words ≢ full_count)) → result ≡ told_counted counted «record» work }
{
    match work {
        Ok(place) => Corrected {
            refusal: 0,
            place,
            record: counted(record, place),
        },
        Err(x) => Corrected {
            refusal: x.number(),
            place: x.place(),
            record,
        },
    }
}
