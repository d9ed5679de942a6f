// What is wrong with a call's record, words, output and places: the first reason that applies, in
// document 01's order.
#![tactic(auto, unfolding(coder_theory::specs::Reasons::first_reason))]

ghost use Rattle.std.specs.Prelude.{◌≡◌, ◌∷◌, [], ◌++◌, ◌<◌, length, ◌||◌, eqb, ltb};
ghost use Rattle.coder_theory.specs.State.{places_in, message_in};
ghost use Rattle.coder_theory.specs.Reasons.{first_reason, left_out, full, not_asked, wrong_length, short_output, bad_byte, because};
ghost use Rattle.coder_theory.specs.Calls.{answer_of, state_reasons, layout_reasons, write_reasons, combine_reasons, places_reasons};
ghost use Rattle.checks.specs.Told.{told};

use crate::fit;
use crate::refusal::Refusal;
use coder_theory::Record;

// 21, 22, 10 and 5 of one place.
pub fn place(record: Record, p: u32) -> Result<(), Refusal>
    ensures { told result ≡ answer_of (first_reason (layout_reasons «record» p)) }
{
    let size = fit::usable(record)?;
    in_range(size.places, p)
}

// 21, 22, 10, 5 and 6 of two places.
pub fn places(record: Record, i: u32, j: u32) -> Result<(), Refusal>
    ensures { told result ≡ answer_of (first_reason (places_reasons «record» i j)) }
{
    let size = fit::usable(record)?;
    let n = size.places;
    in_range(n, i)?;
    in_range(n, j)?;
    if i == j {
        return Err(Refusal::EqualPlaces);
    }
    Ok(())
}

// 21, 22, 10, 2 and 3: n bytes are asked of the word, and the output has `room` bytes of which `need` are
// needed. Of the calls here only correction as it was (two_passes) uses it; it is for other lengths too, of a call whose
// output is longer than a word.
pub fn sizes(record: Record, n: u32, word: &[u8], need: u32, room: usize) -> Result<(), Refusal>
    ensures { told result ≡ answer_of (first_reason (state_reasons «record» ++ (wrong_length n word.now ∷ short_output need room ∷ []))) }
{
    fit::state(record)?;
    of_lengths(n, word, need, room)
}

// The same of a word and an output that is to hold one.
pub fn word(record: Record, word: &[u8], room: usize) -> Result<(), Refusal>
    ensures { told result ≡ answer_of (first_reason (state_reasons «record» ++ (wrong_length (places_in «record») word.now ∷ short_output (places_in «record») room ∷ []))) }
{
    let size = fit::usable(record)?;
    of_lengths(size.places, word, size.places, room)
}

// The same of a message and an output that is to hold its codeword.
pub fn message(record: Record, message: &[u8], room: usize) -> Result<(), Refusal>
    ensures { told result ≡ answer_of (first_reason (state_reasons «record» ++ (wrong_length (message_in «record») message.now ∷ short_output (places_in «record») room ∷ []))) }
{
    let size = fit::usable(record)?;
    of_lengths(size.message, message, size.places, room)
}

// 21, 22, 10, 2, 3 and 4 of a word and an output that is to hold one.
pub fn written(record: Record, word: &[u8], room: usize) -> Result<(), Refusal>
    ensures { told result ≡ answer_of (first_reason (write_reasons «record» (places_in «record») word.now room)) }
{
    self::word(record, word, room)?;
    all_bits(word)
}

// 21, 22, 10, 2, 3 and 4 of two words: a fault of the first before the same fault of the second.
pub fn two(record: Record, first: &[u8], second: &[u8], room: usize) -> Result<(), Refusal>
    ensures { told result ≡ answer_of (first_reason (combine_reasons «record» first.now second.now room)) }
{
    let size = fit::usable(record)?;
    let n = size.places;
    of_length(n, first)?;
    of_length(n, second)?;
    with_room(n, room)?;
    all_bits(first)?;
    all_bits(second)
}

// 11 and 23 of a correction at place q, by its number before renumbering.
pub fn correction(record: Record, q: u32) -> Result<(), Refusal>
    ensures { told result ≡ answer_of (first_reason (left_out «record».s q ∷ full «record» ∷ [])) }
{
    if shortened::is_left_out(record.s, q) {
        return Err(Refusal::LeftOut);
    }
    not_full(record)
}

// 24 and 23 of a commit: the place that it claims, and the one that asking gave.
pub fn claim(record: Record, claimed: u32, asked: u32) -> Result<(), Refusal>
    ensures { told result ≡ answer_of (first_reason (not_asked claimed asked ∷ full «record» ∷ [])) }
{
    if claimed != asked {
        return Err(Refusal::NotAsked);
    }
    not_full(record)
}

// 23: one more correction cannot be counted.
fn not_full(record: Record) -> Result<(), Refusal>
    ensures { told result ≡ answer_of (first_reason (full «record» ∷ [])) }
{
    if record.words == u32::MAX {
        return Err(Refusal::Full);
    }
    Ok(())
}

// 2 and 3: n bytes are asked of a word or a message, and `need` of an output that has `room`.
fn of_lengths(n: u32, word: &[u8], need: u32, room: usize) -> Result<(), Refusal>
    ensures { told result ≡ answer_of (first_reason (wrong_length n word.now ∷ short_output need room ∷ [])) }
{
    of_length(n, word)?;
    with_room(need, room)
}

// 2: n bytes are asked of a word or a message.
fn of_length(n: u32, word: &[u8]) -> Result<(), Refusal>
    ensures { told result ≡ answer_of (first_reason (wrong_length n word.now ∷ [])) }
{
    if word.len() != n as usize {
        return Err(Refusal::WrongLength);
    }
    Ok(())
}

// 3: so many bytes are needed of an output, which has `room`.
fn with_room(need: u32, room: usize) -> Result<(), Refusal>
    ensures { told result ≡ answer_of (first_reason (short_output need room ∷ [])) }
{
    if room < need as usize {
        return Err(Refusal::ShortOutput);
    }
    Ok(())
}

// 4 of a word.
fn all_bits(word: &[u8]) -> Result<(), Refusal>
    requires { length word.now < 4294967296 }
    ensures { told result ≡ answer_of (first_reason (bad_byte word.now ∷ [])) }
{
    coding::all_bits(word).map_err(|place| Refusal::BadByte(place as u32))
}

// 5: p is none of n places.
fn in_range(n: u32, p: u32) -> Result<(), Refusal>
    ensures { told result ≡ answer_of (first_reason (because 5 (eqb p 0 || ltb n p) ∷ [])) }
{
    if !parameters::is_place(n, p) {
        return Err(Refusal::Outside);
    }
    Ok(())
}
