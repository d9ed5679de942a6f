// The place at fault in a word, told from its syndrome.
ghost use Rattle.std.specs.Prelude.{◌≡◌, true, length};
ghost use Rattle.group_theory.specs.Group.{negative};
ghost use Rattle.layout_theory.specs.Parameters.{moduli_for};
ghost use Rattle.layout_theory.specs.Calls.{place_for};
ghost use Rattle.words_theory.specs.Calls as calls;
ghost use Rattle.shortened_theory.specs.Code.{fill};
ghost use Rattle.shortened_theory.specs.Calls.{fits_word};

use crate::other_half;
use group::{Element, Moduli};
use parameters::Code;

// The place at fault, from the syndrome: the place of minus the syndrome, or, where the word differs
// on the two halves of its pair, the other half. The first s places are left out of the word; they are 0.
pub(crate) fn fault_of(code: Code, e: Element, word: &[u8]) -> u32
    requires { fits_word code.t code.r code.s (length word.now) ≡ true }
    ensures { result ≡ calls.fault_at (moduli_for code.t code.r) e (fill code.s word.now) }
{
    let p = negative_place(code, e);
    let s = code.s;
    if p <= s {
        return p;
    }
    let k = other_half(code, p);
    let b = word[(p - s - 1) as usize];
    let c = word[(k - s - 1) as usize];
    if b == c { p } else { k }
}

// The place of minus e: the other half of the place of e, which is quicker told than minus e is made. An e that no
// place has is negated all the same, for its components may be out of range.
fn negative_place(code: Code, e: Element) -> u32
    ensures { result ≡ place_for code.t code.r (negative (moduli_for code.t code.r) e) }
{
    let p = layout::place_of(code, e);
    if p != 0 {
        return other_half(code, p);
    }
    let h = code.shape();
    let m = Moduli { a: h.a, b: h.b };
    layout::place_of(code, m.neg(e))
}
