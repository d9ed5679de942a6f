// Places of a shortened code, with no record (request C-17): the first s places of a message are left out, and
// places are renumbered from 1. Here they are asked for by their old numbers: which are left out, which are
// binary or of a pair, and the third place of two. Every input is answered; 0 where t and r are not admitted,
// s is not allowed, or a place is none of the code's (crate shortened_theory, specs/Calls.antt). No Option: place 0
// for none is document 01's own number, and so `shortened_third_for`'s, as `shortened_width_for` has 0, 1 and 2.
#![tactic(auto)]

ghost use Rattle.std.specs.Prelude.{◌≡◌};
ghost use Rattle.shortened_theory.specs.Code.{is_left_out};
ghost use Rattle.shortened_theory.specs.Calls.{shortened_width_for, shortened_third_for};

use parameters::Code;

// Whether a place, by the number that it had before renumbering, is one of the s that are left out.
pub fn is_left_out(s: u32, place: u32) -> bool
    ensures { result ≡ is_left_out s place }
{
    place != 0 && place <= s
}

// 1 for a binary place, 2 for a place of a pair; 0 where there is no such place.
pub fn width(code: Code, place: u32) -> u32
    ensures { result ≡ shortened_width_for code.t code.r code.s place }
{
    if code.allowed() && parameters::is_place(code.shape().places - code.s, place) {
        places::width(code, place + code.s)
    } else {
        0
    }
}

// The third place of two places, by the number that it had before renumbering; 0 where they are not
// two places.
pub fn third(code: Code, i: u32, j: u32) -> u32
    ensures { result ≡ shortened_third_for code.t code.r code.s i j }
{
    if !code.allowed() {
        return 0;
    }
    let s = code.s;
    let n = code.shape().places - s;
    if parameters::is_place(n, i) && parameters::is_place(n, j) {
        places::third(code, i + s, j + s)
    } else {
        0
    }
}
