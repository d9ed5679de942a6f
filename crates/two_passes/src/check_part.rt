// The check part: its digits are the components of an element, a byte for each binary one and two for
// each quaternary one. All twelve components are gone through, as they were then; those that are not in use are 0.
// `Moduli` is for any a and b, so that they are few is required.
ghost use Rattle.std.specs.Prelude.{◌≡◌, ◌+◌, ◌*◌, ◌≤◌, length};
ghost use Rattle.group_theory.specs.Group.{moduli};
ghost use Rattle.layout_theory.specs.Layout.{units};
ghost use Rattle.words_theory.specs.Syndrome.{syndrome_over};

use group::{Element, Moduli};

// The sum of the check places: the element with these digits.
pub(crate) fn read(m: Moduli, check: &[u8]) -> Element
    requires { (m.a + m.b ≤ 12) × (m.a + 2 * m.b ≤ length check.now) }
    ensures { result ≡ syndrome_over (moduli m.a m.b) (units (moduli m.a m.b)) check.now }
{
    let mut e = [0u8; 12];
    // The index of the next byte: a component has one or two.
    let mut at: usize = 0;
    for i in 0..12 {
        if i < m.a {
            e[i] = check[at] % 2;
            at += 1;
        } else if i - m.a < m.b {
            e[i] = gray::digit(check[at], check[at + 1]);
            at += 2;
        } else {
            e[i] = 0;
        }
    }
    e
}
