// The check part: its digits are the components of an element, a byte for each binary one and two for
// each quaternary one. `Moduli` is for any a and b, so that they are few is required.
ghost use Rattle.std.specs.Prelude.{◌≡◌, ◌+◌, ◌*◌, ◌≤◌, ◌++◌, length, drop, MatchOption};
ghost use Rattle.group_theory.specs.Group.{moduli};
ghost use Rattle.layout_theory.specs.Layout.{units};
ghost use Rattle.words_theory.specs.Syndrome.{syndrome_over};
ghost use Rattle.words_theory.specs.Coding.{check_digits};
ghost use Rattle.loops_theory.specs.Passing.{BitsIn, BadIn};

use group::{Element, Moduli};

// The sum of the check places: it is the element with these digits. Nothing where a byte is above 1.
pub(crate) fn read(m: Moduli, check: &[u8]) -> Option<Element>
    requires { (m.a + m.b ≤ 12) × (length check.now ≡ m.a + 2 * m.b) }
    ensures { MatchOption result (BadIn check.now 0 (length check.now)) (λ x. BitsIn check.now 0 (length check.now) × (x ≡ syndrome_over (moduli m.a m.b) (units (moduli m.a m.b)) check.now)) }
{
    let mut e = [0u8; 12];
    let mut most: u8 = 0;
    // The index of the next byte: a component has one or two. With the two kinds split apart there would be two loops.
    let mut at: usize = 0;
    for i in 0..m.a + m.b {
        let x = check[at];
        if i < m.a {
            e[i] = x % 2;
            most = most.max(x);
            at += 1;
        } else {
            let y = check[at + 1];
            e[i] = gray::digit(x, y);
            most = most.max(x).max(y);
            at += 2;
        }
    }
    if most <= 1 { Some(e) } else { None }
}

// Writes the check digits of an element over the front of an output.
pub(crate) fn write(m: Moduli, e: Element, out: &mut [u8])
    requires { (m.a + m.b ≤ 12) × (m.a + 2 * m.b ≤ length out.old) }
    ensures { out.new ≡ check_digits (moduli m.a m.b) e ++ drop (m.a + 2 * m.b) out.old }
{
    // The index of the next byte, as above.
    let mut at: usize = 0;
    for (i, d) in e.iter().enumerate() {
        if i < m.a {
            out[at] = *d;
            at += 1;
        } else if i - m.a < m.b {
            let [b, c] = gray::places(*d);
            out[at] = b;
            out[at + 1] = c;
            at += 2;
        }
    }
}
