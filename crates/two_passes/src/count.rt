// The counts of a record, as they were then: an accepted correction adds one to words and to one of the other three. The
// functions here are called with counts that have room for one more; those of crate checks are for any record.
ghost use Rattle.std.specs.Prelude.{◌≡◌, ◌≢◌, ◌+◌, ◌<◌};
ghost use Rattle.layout_theory.specs.Choice.{one_if};
ghost use Rattle.coder_theory.specs.State as state;

use checks::fit;
use coder_theory::Record;

// One more where it is to be counted.
fn add(count: u32, yes: bool) -> u32
    requires { count < state.full_count }
    ensures { result ≡ count + one_if yes }
{
    if yes { count + 1 } else { count }
}

// The record after an accepted correction that told a place. The three counts are at most their sum.
pub(crate) fn counted(record: Record, place: u32) -> Record
    requires { (state.Usable «record») × («record».words ≢ state.full_count) }
    ensures { result ≡ state.counted «record» place }
{
    let width = shortened::width(fit::code(record), place);
    Record {
        words: record.words + 1,
        clean: add(record.clean, place == 0),
        corrected_binary: add(record.corrected_binary, width == 1),
        corrected_pairs: add(record.corrected_pairs, width == 2),
        ..record
    }
}
