// Places of a word: which one is at fault, whether it is binary or of a pair, the other half of its pair, and the
// third place of two; and the inverse of a word, which swaps the two places of each pair. Every input is answered:
// 0, or nothing written, where t and r are not admitted, s is not allowed, a place is none of the code's, or a
// word or an output is too short. What each function answers is defined in crates words_theory and
// shortened_theory, specs/Calls.antt, and in specs/OtherHalf.antt. No Option: place 0 for none is document 01's own
// number, and so that of `fault_at_for`, `third_for` and `other_half_for`, as `width_for` has 0, 1 and 2.
#![tactic(auto)]

mod halves;
mod ones;
mod place;

ghost use Rattle.std.specs.Prelude.{◌≡◌};
ghost use Rattle.words_theory.specs.Calls.{width_for, third_for};
ghost use Rattle.shortened_theory.specs.Calls.{fault_at_for, shortened_invert_for};
ghost use Rattle.places.specs.OtherHalf.{other_half_for};

use group::Element;
use parameters::Code;

// The place at fault in a word of syndrome e, by the number that it had before renumbering: for a word of bits,
// the one that correction changes; 0 where e is zero, and where the word is none of the code.
pub fn fault(code: Code, e: Element, word: &[u8]) -> u32
    ensures { result ≡ fault_at_for code.t code.r code.s e word.now }
{
    if !group::is_zero(e) && code.fits_word(word.len()) {
        place::fault_of(code, e, word)
    } else {
        0
    }
}

// The other half of a place of a pair; a binary place is its own, and where there is no such place it is 0.
// Places are those of the whole code: s is not looked at, here and in `width` and `third`.
pub fn other_half(code: Code, place: u32) -> u32
    ensures { result ≡ other_half_for code.t code.r place }
{
    let h = code.shape();
    if parameters::is_place(h.places, place) {
        (halves::other_index(h, (place - 1) as usize) + 1) as u32
    } else {
        0
    }
}

// 1 for a binary place, 2 for a place of a pair; 0 where there is no such place.
pub fn width(code: Code, place: u32) -> u32
    ensures { result ≡ width_for code.t code.r place }
{
    let other = other_half(code, place);
    if other == 0 {
        0
    } else if other == place {
        1
    } else {
        2
    }
}

// The inverse of a word of a code, shortened by s, at the front of an output.
pub fn invert(code: Code, word: &[u8], out: &mut [u8])
    ensures { out.new ≡ shortened_invert_for code.t code.r code.s word.now out.old }
{
    if code.fits_word(word.len()) && code.has_room(out.len()) {
        halves::swap(code, word, out);
    }
}

// The place that makes a codeword of weight 3 with the places i and j; 0 where they are not two places
// of the code.
pub fn third(code: Code, i: u32, j: u32) -> u32
    ensures { result ≡ third_for code.t code.r i j }
{
    let n = code.shape().places;
    if parameters::is_place(n, i) && parameters::is_place(n, j) && i != j {
        ones::third_of(code, i, j)
    } else {
        0
    }
}
