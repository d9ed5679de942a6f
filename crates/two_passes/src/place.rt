// Which place of a word is at fault, told from its syndrome as it was then: by minus the syndrome, and with no test
// for zero. `fault_of` is called with the shape of an admitted code, a word that is long enough, and its syndrome.
ghost use Rattle.std.specs.Prelude.{◌≡◌, ◌<◌, ◌≤◌, ◌==◌, length};
ghost use Rattle.layout_theory.specs.Choice.{pick};
ghost use Rattle.layout_theory.specs.Parameters.{moduli_for};
ghost use Rattle.layout_theory.specs.Calls.{shape_for};
ghost use Rattle.words_theory.specs.Syndrome.{syndrome};
ghost use Rattle.words_theory.specs.Calls as calls;

use crate::halves;
use group::{Element, Moduli};
use parameters::{Code, Shape};

// Of the two halves of a pair, the first where their bytes are equal, and else the second.
fn half(b: u8, c: u8, i: usize, k: usize) -> usize
    ensures { result ≡ pick (b == c) i k }
{
    if b == c { i } else { k }
}

// The place at fault, from the syndrome: the place of minus the syndrome, or, where the word differs
// on the two halves of its pair, the other half.
pub(crate) fn fault_of(code: Code, h: Shape, e: Element, word: &[u8]) -> u32
    requires { (h ≡ shape_for code.t code.r) × (0 < h.places) × (h.places ≤ length word.now) × (e ≡ syndrome (moduli_for code.t code.r) word.now) }
    ensures { result ≡ calls.fault (moduli_for code.t code.r) word.now }
{
    let m = Moduli { a: h.a, b: h.b }.neg(e);
    let p = layout::place_of(code, m);
    if p == 0 {
        return 0;
    }
    let i = (p - 1) as usize;
    let k = halves::other_index(h, i);
    let j = half(word[i], word[k], i, k);
    (j + 1) as u32
}
