// The elements of one sign in the order of their numbers: the element at an index, and the index of an
// element. With one more quaternary component the numbers of a sign are four blocks, one for each
// digit, of numbers without it (crate blocks_theory, proofs/Blocks.antt), so the highest digit is found
// by comparing the index with the blocks' widths, and so on down to the binary components, where all
// numbers have one sign and the index is the number. What has sign 3 is found by its negative, which has
// sign 1.
ghost use Rattle.std.specs.Prelude.{◌≡◌, ◌++◌, ◌+◌, ◌-◌, ◌*◌, ◌≤◌, ◌<◌, ◌^◌, length, drop};
ghost use Rattle.group_theory.specs.Group.{Valid, moduli, times, number, element};
ghost use Rattle.group_theory.specs.Sign.{lead, odd_or};
ghost use Rattle.blocks_theory.specs.Blocks.{level};
ghost use Rattle.blocks_theory.specs.Indices.{digit_of, kind_of, factor_of, Signed, numbers, standing, ones, offset, kind_after, InBlock, Based};

use blocks_theory::{Kind, Sign};
use group::{Element, Moduli};

// How many numbers of a kind the first a + j components have.
pub(crate) fn count(m: Moduli, kind: Kind, j: usize) -> u32
    requires { (m.a + m.b ≤ 12) × (j ≤ m.b) }
    ensures { (result ≡ length (numbers kind (level m.a m.b j))) × (result ≤ 2 ^ 24) }
{
    let even = 1u32 << (m.a + j);
    let low = ((1u32 << (m.a + 2 * j)) + even) / 2;
    match kind {
        Kind::Even => even,
        Kind::Plus => low - even,
        Kind::Low => low,
    }
}

// The blocks of the numbers of a kind, by the digit of one component: how wide those of the digits 0 and
// 2 are, and that of digit 1. The block of digit 3 takes the rest.
#[derive(Clone, Copy)]
struct Blocks {
    even: u32,
    one: u32,
    ghost small: { (even ≤ 2 ^ 24) × (one ≤ 2 ^ 24) },
}

impl Blocks {
    // Those of quaternary component j, counted from 0.
    fn of(m: Moduli, j: usize, kind: Kind) -> Blocks
        requires { (m.a + m.b ≤ 12) × (j < m.b) }
        ensures { (result.even ≡ length (numbers kind (level m.a m.b j))) × (result.one ≡ ones kind (level m.a m.b j)) }
    {
        let one = match kind {
            Kind::Even => 0,
            _ => count(m, Kind::Low, j),
        };
        Blocks {
            even: count(m, kind, j),
            one,
        }
    }

    // The digit whose block has index k, and the index there.
    fn find(self, k: u32) -> (u8, u32)
        ensures { InBlock k self.even self.one result.0 × (result.1 ≡ k - offset result.0 self.even self.one) }
    {
        if k < self.even {
            (0, k)
        } else if k < self.even + self.one {
            (1, k - self.even)
        } else if k < 2 * self.even + self.one {
            (2, k - (self.even + self.one))
        } else {
            (3, k - (2 * self.even + self.one))
        }
    }

    // Where the block of a digit starts.
    fn start(self, d: u8) -> u32
        requires { d < 4 }
        ensures { (result ≡ offset d self.even self.one) × (result < 2 ^ 26) }
    {
        u32::from((d + 1) / 2) * self.even + u32::from(d / 2) * self.one
    }
}

// What follows of a kind and of a sign are free functions: the two enums stand in a crate of theory, which
// has no functions; and since they are two, so are `after` and `sign_after`.

// The kind of the numbers in the block of a digit. The sign is that of the components below where one of
// them is odd, and else that of the digit. So an even digit asks of those below what was asked before,
// 1 asks that their sign is not 3, and 3 that it is 1.
fn after(kind: Kind, d: u8) -> Kind
    requires { d < 4 }
    ensures { result ≡ kind_after kind d }
{
    // By parity first: where the digits cannot be foreseen, one jump and a choice cost less than two jumps.
    if d % 2 != 0 {
        if d == 1 { Kind::Low } else { Kind::Plus }
    } else {
        kind
    }
}

// The kind among whose numbers an element of a sign is sought.
fn kind_of(sign: Sign) -> Kind
    ensures { result ≡ kind_of sign }
{
    match sign {
        Sign::Zero => Kind::Even,
        _ => Kind::Plus,
    }
}

// What an element of a sign is multiplied by to be the one whose number is sought, and that one to be it.
fn factor_of(sign: Sign) -> u8
    ensures { result ≡ factor_of sign }
{
    match sign {
        Sign::Three => 3,
        _ => 1,
    }
}

// The quaternary digits of the element at index k, and the number of its binary ones.
fn top(m: Moduli, sign: Sign, k: u32) -> (Element, u32)
    requires { (m.a + m.b ≤ 12) × (k < length (numbers (kind_of sign) (moduli m.a m.b))) }
    ensures { standing sign (moduli m.a m.b) k ≡ element (level m.a 0 0) result.1 ++ drop m.a result.0 }
{
    let mut r = [0u8; 12];
    let mut i = k;
    let mut kind = kind_of(sign);
    for j in (0..m.b).rev() {
        let (d, index) = Blocks::of(m, j, kind).find(i);
        r[m.a + j] = (factor_of(sign) * d) % 4;
        i = index;
        kind = after(kind, d);
    }
    (r, i)
}

// The binary digits of k, before the quaternary ones that x has.
fn bits(a: usize, k: u32, x: Element) -> Element
    requires { a ≤ 12 }
    ensures { result ≡ element (level a 0 0) k ++ drop a x }
{
    let mut r = x;
    let mut left = k;
    for digit in r[..a].iter_mut() {
        *digit = (left % 2) as u8;
        left /= 2;
    }
    r
}

// The element of a sign at index k.
pub(crate) fn element(m: Moduli, sign: Sign, k: u32) -> Element
    requires { (m.a + m.b ≤ 12) × (k < length (numbers (kind_of sign) (moduli m.a m.b))) }
    ensures { result ≡ standing sign (moduli m.a m.b) k }
{
    let (digits, low) = top(m, sign, k);
    bits(m.a, low, digits)
}

// The sign with a quaternary component d before the others.
fn sign_after(sign: Sign, d: u8) -> Sign
    requires { d < 4 }
    ensures { digit_of result ≡ odd_or d (digit_of sign) }
{
    if d % 2 == 0 {
        sign
    } else if d == 1 {
        Sign::One
    } else {
        Sign::Three
    }
}

// The sign of an element.
pub(crate) fn sign(m: Moduli, x: Element) -> Sign
    requires { (m.a + m.b ≤ 12) × Valid (moduli m.a m.b) x }
    ensures { digit_of result ≡ lead (moduli m.a m.b) x }
{
    let mut s = Sign::Zero;
    for j in (0..m.b).rev() {
        s = sign_after(s, x[m.a + j]);
    }
    s
}

// The index where the elements start that share the quaternary digits of x.
fn base(m: Moduli, sign: Sign, x: Element) -> u32
    requires { Signed m.a m.b sign x }
    ensures { Based m.a m.b (kind_of sign) (times (moduli m.a m.b) (factor_of sign) x) result }
{
    let mut k = 0;
    let mut kind = kind_of(sign);
    for j in (0..m.b).rev() {
        let d = (factor_of(sign) * x[m.a + j]) % 4;
        k += Blocks::of(m, j, kind).start(d);
        kind = after(kind, d);
    }
    k
}

// The number that the binary digits of x make.
fn low_number(a: usize, x: Element) -> u32
    requires { a ≤ 12 }
    ensures { result ≡ number (moduli a 0) x }
{
    let mut u = 0;
    for digit in x[..a].iter().rev() {
        u = 2 * u + u32::from(*digit % 2);
    }
    u
}

// The index of x among the elements of its sign.
pub(crate) fn index_of(m: Moduli, sign: Sign, x: Element) -> u32
    requires { Signed m.a m.b sign x }
    ensures { (result < length (numbers (kind_of sign) (moduli m.a m.b))) × (standing sign (moduli m.a m.b) result ≡ x) }
{
    base(m, sign, x) + low_number(m.a, x)
}
