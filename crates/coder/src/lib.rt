// The calls of document 01 and of request C-20 on a record. Every input is answered. A refusal is a number; 0 says that the
// call is accepted. What each call answers is defined in crate coder_theory, specs/Calls.antt; the
// theorems on these answers, demand 3 among them, are there too. What is wrong with a call is found by
// crate checks, which counts too; the work on plain words of the shortened code is done by crates coding (the pass
// over a received word, encoding, a correction's flip), combining, places and shortened. Each call is done by a
// function of its own, whose Result is made the call's answer: a refusal its number and place. The answers are structs with that
// number, and no Result, since the theorems of coder_theory speak of these structs, and C and the README have the numbers.
#![tactic(auto)]

mod answers;
mod work;

ghost use Rattle.std.specs.Prelude.{◌≡◌};
ghost use Rattle.coder_theory.specs.Calls.{opened, element_answer, word_length, message_length, syndrome_answer, codeword_answer, shown};
ghost use Rattle.coder_theory.specs.Calls.{encode_answer, encode_output, correct_answer, correct_output, combine_answer, combine_output, invert_answer, invert_output, third_answer};
ghost use Rattle.coder_theory.specs.Calls.{ask_answer, commit_answer, commit_output};

use checks::{count, fit};
pub use coder_theory::{Answer, Corrected, ElementAnswer, Opened, Record, TestAnswer};
use parameters::Code;

// A record for the code with t and r, shortened by s; r = 0 means the smallest admitted r, half of t
// rounded up. Refused with 1 where t and r are not admitted, and with 10 where s is not allowed.
#[tactic(auto, unfolding(coder_theory::specs::Reasons::first_reason, coder_theory::specs::Calls::opened))]
pub fn open(t: u32, r: u32, s: u32) -> Opened
    ensures { result ≡ opened t r s }
{
    let r = work::in_force(t, r);
    match work::opened(Code { t, r, s }) {
        Ok(record) => Opened { refusal: 0, record },
        Err(x) => Opened {
            refusal: x.number(),
            record: work::CLOSED,
        },
    }
}

// The number of the element of a place. Refused with 21, 22, 10 and 5.
pub fn element_at(record: Record, place: u32) -> ElementAnswer
    ensures { result ≡ element_answer «record» place }
{
    answers::element(work::element_of(record, place))
}

// n − s, the places of a word; 0 where 21, 22 or 10 applies to the record.
pub fn word_length(record: Record) -> u32
    ensures { result ≡ word_length «record» }
{
    fit::lengths(record).places
}

// n − t − s, the places of a message; 0 where 21, 22 or 10 applies to the record.
pub fn message_length(record: Record) -> u32
    ensures { result ≡ message_length «record» }
{
    fit::lengths(record).message
}

// The number of a word's syndrome. Refused with 21, 22, 10, 2 and 4.
pub fn syndrome(record: Record, word: &[u8]) -> ElementAnswer
    ensures { result ≡ syndrome_answer «record» word.now }
{
    answers::element(work::syndrome_of(record, word))
}

// Whether a word is a codeword. Refused with 21, 22, 10, 2 and 4, and then it says no.
#[tactic(auto, unfolding(coder_theory::specs::Reasons::first_reason, coder_theory::specs::Calls::codeword_answer))]
pub fn is_codeword(record: Record, word: &[u8]) -> TestAnswer
    ensures { result ≡ codeword_answer «record» word.now }
{
    match work::received(record, word, word.len()) {
        Ok(e) => TestAnswer {
            refusal: 0,
            place: 0,
            yes: group::is_zero(e),
        },
        Err(x) => TestAnswer {
            refusal: x.number(),
            place: x.place(),
            yes: false,
        },
    }
}

// The message of a codeword, as the front of the word itself; empty where the codeword test does
// not say yes.
pub fn read_message<'a>(record: Record, word: &'a [u8]) -> &'a [u8]
    ensures bytes { result.now ≡ shown «record» word.now }
    ensures place { result.ref_ptr ≡ word.entry.ref_ptr }
{
    let a = is_codeword(record, word);
    if a.yes {
        let m = message_length(record);
        return &word[..m as usize];
    }
    &word[..0]
}

// The codeword of a message, at the front of `out`. Refused with 21, 22, 10, 2, 3 and 4.
pub fn encode(record: Record, message: &[u8], out: &mut [u8]) -> Answer
    ensures answer { result ≡ encode_answer «record» message.now out.old }
    ensures bytes { out.new ≡ encode_output «record» message.now out.old }
{
    answers::done(work::encoded(record, message, out))
}

// The codeword that differs from a word in at most one place, at the front of `out`, and that place.
// Refused with 21, 22, 10, 2, 3, 4, 11, where there is none, and 23.
pub fn correct(record: Record, word: &[u8], out: &mut [u8]) -> Corrected
    ensures answer { result ≡ correct_answer «record» word.now out.old }
    ensures bytes { out.new ≡ correct_output «record» word.now out.old }
{
    match work::corrected(record, word, out) {
        Ok(p) => Corrected {
            refusal: 0,
            place: p,
            record: count::counted(record, p),
        },
        Err(x) => Corrected {
            refusal: x.number(),
            place: x.place(),
            record,
        },
    }
}

// The place that correction would change, 0 for a codeword; nothing is counted. Refused with 21, 22, 10, 2, 4
// and 11, where there is none.
pub fn ask(record: Record, word: &[u8]) -> Answer
    ensures { result ≡ ask_answer «record» word.now }
{
    answers::place(work::asked(record, word))
}

// Flips a claimed place in the caller's own word, and counts it; place 0 flips none. Refused with 21, 22, 10, 2,
// 4, 11, 24, where asking gives another place for the word, and 23.
pub fn commit(record: Record, place: u32, word: &mut [u8]) -> Corrected
    ensures answer { result ≡ commit_answer «record» place word.old }
    ensures bytes { word.new ≡ commit_output «record» place word.old }
{
    match work::committed(record, place, word) {
        Ok(place) => Corrected {
            refusal: 0,
            place,
            record: count::counted(record, place),
        },
        Err(x) => Corrected {
            refusal: x.number(),
            place: x.place(),
            record,
        },
    }
}

// Two words combined by the group law, at the front of `out`. Refused with 21, 22, 10, 2, 3 and 4.
pub fn combine(record: Record, first: &[u8], second: &[u8], out: &mut [u8]) -> Answer
    ensures answer { result ≡ combine_answer «record» first.now second.now out.old }
    ensures bytes { out.new ≡ combine_output «record» first.now second.now out.old }
{
    answers::done(work::combined(record, first, second, out))
}

// The inverse of a word, at the front of `out`. Refused with 21, 22, 10, 2, 3 and 4.
pub fn invert(record: Record, word: &[u8], out: &mut [u8]) -> Answer
    ensures answer { result ≡ invert_answer «record» word.now out.old }
    ensures bytes { out.new ≡ invert_output «record» word.now out.old }
{
    answers::done(work::inverted(record, word, out))
}

// The place that makes a codeword of weight 3 with the places i and j. Refused with 21, 22, 10, 5, 6
// and 11.
pub fn third_place(record: Record, i: u32, j: u32) -> Answer
    ensures { result ≡ third_answer «record» i j }
{
    answers::place(work::third(record, i, j))
}
