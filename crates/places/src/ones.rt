// The third place of two places, told from their elements.
ghost use Rattle.std.specs.Prelude.{◌≡◌};
ghost use Rattle.layout_theory.specs.Parameters.{moduli_for};
ghost use Rattle.words_theory.specs.Words.{zero_word, flip};
ghost use Rattle.words_theory.specs.Syndrome.{syndrome, length_of};
ghost use Rattle.words_theory.specs.Coding.{third};
ghost use Rattle.words_theory.specs.Calls.{TwoPlaces};

use crate::other_half;
use group::{Element, Moduli};
use parameters::Code;

// The syndrome of the word with ones at the places i and j alone: the two halves of a pair make the
// digit 2, and else the elements add.
fn two_ones(code: Code, i: u32, j: u32) -> Element
    requires { TwoPlaces code.t code.r i j }
    ensures { result ≡ syndrome (moduli_for code.t code.r) (flip j (flip i (zero_word (length_of (moduli_for code.t code.r))))) }
{
    let h = code.shape();
    let m = Moduli { a: h.a, b: h.b };
    let x = layout::element_at(code, i);
    if other_half(code, j) == i {
        m.add(x, x)
    } else {
        m.add(x, layout::element_at(code, j))
    }
}

// The place whose element takes that syndrome to zero is the other half of the place that has it, and the
// third place, unless it is one of the two; then the place that has the syndrome is.
pub(crate) fn third_of(code: Code, i: u32, j: u32) -> u32
    requires { TwoPlaces code.t code.r i j }
    ensures { result ≡ third (moduli_for code.t code.r) i j }
{
    let e = two_ones(code, i, j);
    let p = layout::place_of(code, e);
    let k = other_half(code, p);
    if k == i || k == j { p } else { k }
}
