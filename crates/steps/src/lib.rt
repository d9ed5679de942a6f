// The three calls that the benchmark of request C-20 times, for C: correction, and asking and committing, its two
// steps. Each has the contract of the coder's call, for every input. In C a slice is a pointer and a length, and
// the structs are those of crate coder_theory, by value. The caller keeps correction's output apart from the word.
//
// This is a crate of its own, not part of crate timed: there the pass over a word has one caller, correction,
// and a second one, asking, would change how `coder::correct` is compiled, and so the figures of request C-14's
// benchmark.
#![tactic(auto)]

ghost use Rattle.std.specs.Prelude.{◌≡◌};
ghost use Rattle.coder_theory.specs.Calls.{correct_answer, correct_output, ask_answer, commit_answer, commit_output};

use coder_theory::{Answer, Corrected, Record};

// Correction: the codeword in an output.
#[unsafe(no_mangle)]
pub extern "C" fn steps_correct(record: Record, word: &[u8], out: &mut [u8]) -> Corrected
    ensures answer { result ≡ correct_answer «record» word.now out.old }
    ensures bytes { out.new ≡ correct_output «record» word.now out.old }
{
    coder::correct(record, word, out)
}

// The place that correction would change.
#[unsafe(no_mangle)]
pub extern "C" fn steps_ask(record: Record, word: &[u8]) -> Answer
    ensures { result ≡ ask_answer «record» word.now }
{
    coder::ask(record, word)
}

// A claimed place flipped in the word itself.
#[unsafe(no_mangle)]
pub extern "C" fn steps_commit(record: Record, place: u32, word: &mut [u8]) -> Corrected
    ensures answer { result ≡ commit_answer «record» place word.old }
    ensures bytes { word.new ≡ commit_output «record» place word.old }
{
    coder::commit(record, place, word)
}
