// What each call does, or why it is refused.
ghost use Rattle.std.specs.Prelude.{◌≡◌, ◌∷◌, [], IfOk};
ghost use Rattle.layout_theory.specs.Choice.{pick};
ghost use Rattle.layout_theory.specs.Calls.{shape_for};
ghost use Rattle.shortened_theory.specs.Code.{new_place, is_left_out};
ghost use Rattle.shortened_theory.specs.Calls.{shortened_syndrome_for, shortened_fault_for, fault_at_for};
ghost use Rattle.coder_theory.specs.State.{fresh, places_in, counted};
ghost use Rattle.coder_theory.specs.Reasons.{first_reason, not_admitted, not_allowed};
ghost use Rattle.coder_theory.specs.Calls.{answer_of, write_reasons, in_force, element_answer, syndrome_answer, encode_answer, encode_output, correct_answer, correct_output};
ghost use Rattle.coder_theory.specs.Calls.{ask_answer, commit_answer, commit_output, combine_answer, combine_output, invert_answer, invert_output, third_answer};
ghost use Rattle.checks.specs.Told.{told, told_place, told_counted};
ghost use Rattle.coder.specs.Told.{told_element};

use checks::refusal::Refusal;
use checks::{check, fit};
use coder_theory::Record;
use group::{Element, Moduli};
use parameters::Code;

// The closed record.
pub(crate) const CLOSED: Record = Record {
    t: 0,
    r: 0,
    s: 0,
    words: 0,
    clean: 0,
    corrected_binary: 0,
    corrected_pairs: 0,
};

// The r that opening takes.
pub(crate) fn in_force(t: u32, r: u32) -> u32
    ensures { result ≡ in_force t r }
{
    if r == 0 { t.div_ceil(2) } else { r }
}

// 1 and 10, or a record of a code, with every count at 0.
#[tactic(auto, unfolding(coder_theory::specs::Reasons::first_reason, shortened_theory::specs::Calls::allowed_for))]
pub(crate) fn opened(code: Code) -> Result<Record, Refusal>
    ensures answer { told result ≡ answer_of (first_reason (not_admitted code.t code.r ∷ not_allowed code.t code.r code.s ∷ [])) }
    ensures opens { IfOk result (λ k. k ≡ fresh code.t code.r code.s) }
{
    if !parameters::admitted(code.t, code.r) {
        return Err(Refusal::NotAdmitted);
    }
    if !code.allowed() {
        return Err(Refusal::NotAllowed);
    }
    Ok(Record {
        t: code.t,
        r: code.r,
        s: code.s,
        ..CLOSED
    })
}

// The group of a record's code.
fn moduli(record: Record) -> Moduli
    ensures { (result.a ≡ (shape_for «record».t «record».r).a) × (result.b ≡ (shape_for «record».t «record».r).b) }
{
    let shape = fit::code(record).shape();
    Moduli {
        a: shape.a,
        b: shape.b,
    }
}

// The number of the element of a place.
#[tactic(auto, unfolding(coder_theory::specs::Reasons::first_reason, coder_theory::specs::Calls::element_answer))]
pub(crate) fn element_of(record: Record, place: u32) -> Result<u32, Refusal>
    ensures { told_element result ≡ element_answer «record» place }
{
    check::place(record, place)?;
    let e = layout::element_at(fit::code(record), place + record.s);
    Ok(moduli(record).number_of(e))
}

// Reads a word of the record's code in one pass, after all that is asked before its bytes, where an output has `room` bytes:
// its syndrome.
#[tactic(auto, unfolding(coder_theory::specs::Reasons::first_reason))]
pub(crate) fn received(record: Record, word: &[u8], room: usize) -> Result<Element, Refusal>
    ensures answer { told result ≡ answer_of (first_reason (write_reasons «record» (places_in «record») word.now room)) }
    ensures sum { IfOk result (λ e. e ≡ shortened_syndrome_for «record».t «record».r «record».s word.now) }
{
    check::word(record, word, room)?;
    coding::scan(fit::code(record), word).map_err(Refusal::BadByte)
}

// The number of a word's syndrome.
#[tactic(auto, unfolding(coder_theory::specs::Reasons::first_reason, coder_theory::specs::Calls::syndrome_answer))]
pub(crate) fn syndrome_of(record: Record, word: &[u8]) -> Result<u32, Refusal>
    ensures { told_element result ≡ syndrome_answer «record» word.now }
{
    let syndrome = received(record, word, word.len())?;
    Ok(moduli(record).number_of(syndrome))
}

// Encodes a message into the front of an output.
#[tactic(auto, unfolding(coder_theory::specs::Reasons::first_reason, coder_theory::specs::Calls::encode_answer, coder_theory::specs::Calls::encode_output))]
pub(crate) fn encoded(record: Record, message: &[u8], out: &mut [u8]) -> Result<(), Refusal>
    ensures answer { told result ≡ encode_answer «record» message.now out.old }
    ensures bytes { out.new ≡ encode_output «record» message.now out.old }
{
    check::message(record, message, out.len())?;
    coding::encode(fit::code(record), message, out).map_err(Refusal::BadByte)
}

// The place at fault in a word, by its number before renumbering, after all that is asked of the word.
#[tactic(auto, unfolding(coder_theory::specs::Reasons::first_reason))]
fn at_fault(record: Record, word: &[u8], room: usize) -> Result<u32, Refusal>
    ensures answer { told result ≡ answer_of (first_reason (write_reasons «record» (places_in «record») word.now room)) }
    ensures place { IfOk result (λ q. q ≡ shortened_fault_for «record».t «record».r «record».s word.now) }
{
    let e = received(record, word, room)?;
    Ok(fault(record, e, word))
}

// The place at fault in a word that has the syndrome e.
fn fault(record: Record, e: Element, word: &[u8]) -> u32
    ensures { result ≡ fault_at_for «record».t «record».r «record».s e word.now }
{
    places::fault(fit::code(record), e, word)
}

// Corrects a word into the front of an output: the place that was flipped, or 0.
#[tactic(auto, unfolding(coder_theory::specs::Reasons::first_reason, coder_theory::specs::Calls::correct_answer, coder_theory::specs::Calls::correct_output))]
pub(crate) fn corrected(record: Record, word: &[u8], out: &mut [u8]) -> Result<u32, Refusal>
    ensures answer { told_counted counted «record» result ≡ correct_answer «record» word.now out.old }
    ensures bytes { out.new ≡ correct_output «record» word.now out.old }
{
    let q = at_fault(record, word, out.len())?;
    check::correction(record, q)?;
    let p = new_place(record, q);
    coding::flip(word, p, out);
    Ok(p)
}

// The place that correction would flip.
#[tactic(auto, unfolding(coder_theory::specs::Reasons::first_reason, coder_theory::specs::Calls::ask_answer))]
pub(crate) fn asked(record: Record, word: &[u8]) -> Result<u32, Refusal>
    ensures { told_place result ≡ ask_answer «record» word.now }
{
    let q = at_fault(record, word, word.len())?;
    renumbered(record, q)
}

// Flips a claimed place where the word stands.
#[tactic(auto, unfolding(coder_theory::specs::Reasons::first_reason, coder_theory::specs::Calls::commit_answer, coder_theory::specs::Calls::commit_output))]
pub(crate) fn committed(record: Record, place: u32, word: &mut [u8]) -> Result<u32, Refusal>
    ensures answer { told_counted counted «record» result ≡ commit_answer «record» place word.old }
    ensures bytes { word.new ≡ commit_output «record» place word.old }
{
    let p = asked(record, word)?;
    check::claim(record, place, p)?;
    coding::flip_in_place(place, word);
    Ok(place)
}

// Combines two words into the front of an output.
#[tactic(auto, unfolding(coder_theory::specs::Reasons::first_reason, coder_theory::specs::Calls::combine_answer, coder_theory::specs::Calls::combine_output))]
pub(crate) fn combined(
    record: Record,
    first: &[u8],
    second: &[u8],
    out: &mut [u8],
) -> Result<(), Refusal>
    ensures answer { told result ≡ combine_answer «record» first.now second.now out.old }
    ensures bytes { out.new ≡ combine_output «record» first.now second.now out.old }
{
    check::two(record, first, second, out.len())?;
    combining::combine(fit::code(record), first, second, out);
    Ok(())
}

// Inverts a word into the front of an output.
#[tactic(auto, unfolding(coder_theory::specs::Reasons::first_reason, coder_theory::specs::Calls::invert_answer, coder_theory::specs::Calls::invert_output))]
pub(crate) fn inverted(record: Record, word: &[u8], out: &mut [u8]) -> Result<(), Refusal>
    ensures answer { told result ≡ invert_answer «record» word.now out.old }
    ensures bytes { out.new ≡ invert_output «record» word.now out.old }
{
    check::written(record, word, out.len())?;
    places::invert(fit::code(record), word, out);
    Ok(())
}

// The third place of two.
#[tactic(auto, unfolding(coder_theory::specs::Reasons::first_reason, coder_theory::specs::Calls::third_answer))]
pub(crate) fn third(record: Record, i: u32, j: u32) -> Result<u32, Refusal>
    ensures { told_place result ≡ third_answer «record» i j }
{
    check::places(record, i, j)?;
    renumbered(record, shortened::third(fit::code(record), i, j))
}

// A place that a call came to, renumbered: 11 where it is left out.
fn renumbered(record: Record, q: u32) -> Result<u32, Refusal>
    ensures { told_place result ≡ pick (is_left_out «record».s q) (record { refusal = 11; place = 0 }) (record { refusal = 0; place = new_place «record».s q }) }
{
    if shortened::is_left_out(record.s, q) {
        return Err(Refusal::LeftOut);
    }
    Ok(new_place(record, q))
}

// A place, renumbered.
fn new_place(record: Record, q: u32) -> u32
    ensures { result ≡ new_place «record».s q }
{
    q.saturating_sub(record.s)
}
