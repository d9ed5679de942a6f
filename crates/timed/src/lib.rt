// The two corrections that the benchmark of request C-14 times, for C: `coder::correct`, and the call as it
// was. Both have one shape and one contract, that of `coder::correct`, for every input, so the benchmark
// can compare all that they tell and write. In C a slice is a pointer and a length, and the structs are
// those of crate coder_theory, by value. The caller keeps the output apart from the word.
#![tactic(auto)]

ghost use Rattle.std.specs.Prelude.{◌≡◌};
ghost use Rattle.coder_theory.specs.Calls.{correct_answer, correct_output};

use coder_theory::{Corrected, Record};

// Correction as it is.
#[unsafe(no_mangle)]
pub extern "C" fn timed_correct(record: Record, word: &[u8], out: &mut [u8]) -> Corrected
    ensures answer { result ≡ correct_answer «record» word.now out.old }
    ensures bytes { out.new ≡ correct_output «record» word.now out.old }
{
    coder::correct(record, word, out)
}

// Correction as it was, in two passes over the word.
#[unsafe(no_mangle)]
pub extern "C" fn timed_two_passes(record: Record, word: &[u8], out: &mut [u8]) -> Corrected
    ensures answer { result ≡ correct_answer «record» word.now out.old }
    ensures bytes { out.new ≡ correct_output «record» word.now out.old }
{
    two_passes::correct(record, word, out)
}
