// Sums of elements, each times the weight that a word has for it, without a table. The weights stand in the
// order of crate folds_theory, specs/Folds.antt: by sign, and by rising number. In this order the
// numbers that have one digit in their highest component are a block, so that one component after the
// other can be taken off: what the blocks add to it is a sum of totals, and the weights that are left
// are sums of blocks. Every loop runs over neighbouring bytes, so that the compiler makes vector code
// of it. `Moduli` is for any a and b, so that they are few is required where it matters.
#![tactic(auto)]

ghost use Rattle.std.specs.Prelude.{◌≡◌, ◌+◌, ◌*◌, ◌/◌, ◌%◌, ◌^◌, ◌<◌, ◌≤◌, ◌↔◌, ◌++◌, length, take, drop, IsTrue};
ghost use Rattle.group_theory.specs.Group.{moduli, size};
ghost use Rattle.group_theory.specs.Weights as weights;
ghost use Rattle.blocks_theory.specs.Blocks.{plus, level, even_to};
ghost use Rattle.folds_theory.specs.Folds as folds;
ghost use Rattle.folds_theory.specs.Folds.{stretch, double, triple, first_plus, first_tops, next_plus, plus_tops, next_low, low_tops, stride, Halved};
ghost use Rattle.folds_theory.specs.Folds.{Holds, twice, weight_order, weighted_for};

use group::{Element, Moduli};

// How many weights there are for the codes up to t = 6, 10 and 12: three lengths, so that a short code does
// not pay for the longest.
pub const ROOM6: usize = 64;

pub const ROOM10: usize = 1024;

pub const ROOM12: usize = 4096;

// The sum of the elements, each times its weight; zero where there is not a weight for each element, or
// where there are more weights than the longest code has.
pub fn weighted<const N: usize>(m: Moduli, mut v: [u8; N]) -> Element
    ensures { result ≡ weighted_for N m.a m.b v.entry }
{
    if within(m, N) {
        both(m, &mut v)
    } else {
        m.zero()
    }
}

// Whether n weights are one for each element, and no more than there may be.
fn within(m: Moduli, n: usize) -> bool
    ensures { IsTrue result ↔ Holds m.a m.b n }
{
    if m.a > 12 || m.b > 6 {
        return false;
    }
    (power(m.a + 2 * m.b)..=ROOM12).contains(&n)
}

// The sum over the numbers of sign 0 and over those of sign 1.
fn both(m: Moduli, v: &mut [u8]) -> Element
    requires { Holds m.a m.b (length v.old) }
    ensures { result ≡ weights.weigh_on (moduli m.a m.b) (weight_order (moduli m.a m.b)) v.old }
{
    let n = power(m.a + 2 * m.b);
    let e = power(m.a + m.b);
    let x = halves(m, m.a + m.b, &mut v[n - e..n], m.zero());
    if m.b == 0 {
        return x;
    }
    let y = pairs(m, v);
    m.add(x, y)
}

// 2 to the power k.
fn power(k: usize) -> usize
    requires { k < 32 }
    ensures { result ≡ 2 ^ k }
{
    1 << k
}

// The sum over a list of numbers that doubles with each component, one number for each weight: one
// component after the other is taken off, from `top` down. The others are those of x.
fn halves(m: Moduli, top: usize, v: &mut [u8], mut x: Element) -> Element
    requires { (m.a + m.b ≤ 12) × (top ≤ m.a + m.b) }
    ensures { Halved m.a m.b top v.old x result }
{
    let mut n = v.len();
    for i in (0..top).rev() {
        let c = halve(&mut v[..n]);
        x[i] = digit(m.a, i, c % 2);
        n /= 2;
    }
    x
}

// What the upper half adds to component i: once its sum, or twice where the component is quaternary.
fn digit(a: usize, i: usize, c: u8) -> u8
    requires { c ≤ 1 }
    ensures { result ≡ stride a i * c }
{
    if i < a { c } else { 2 * c }
}

// The sum of the upper half of the weights, modulo 4; they are added to the lower half. By an index: a loop
// over two slices by `enumerate` took 2 to 6 nanoseconds more a call, up to 12 calls a sum, and of a `zip` with
// `iter_mut` no proof sees what is written.
fn halve(v: &mut [u8]) -> u8
    ensures sum { let n = length v.old / 2 in result ≡ weights.total (stretch n n v.old) % 4 }
    ensures left { let n = length v.old / 2 in v.new ≡ weights.added (take n v.old) (stretch n n v.old) ++ drop n v.old }
{
    let n = v.len() / 2;
    let mut c: u8 = 0;
    for i in 0..n {
        let x = v[n + i] % 4;
        c = c.wrapping_add(x);
        v[i] = (v[i] % 4 + x) % 4;
    }
    c % 4
}

// The sum over the numbers of sign 1, each with the two weights of its pair.
fn pairs(m: Moduli, v: &mut [u8]) -> Element
    requires { Holds m.a m.b (length v.old) × (0 < m.b) }
    ensures { result ≡ weights.weigh_on (moduli m.a m.b) (twice (plus (moduli m.a m.b))) v.old }
{
    let j = m.b - 1;
    let n = power(m.a + 2 * j);
    let e = power(m.a + j);
    let mut x = m.zero();
    x[m.a + j] = fold_first(n - e, n + e, v);
    levels(m, j, n, e, v, x)
}

// The levels below `top`; at each there are n numbers, e of them of sign 0. What is left in the end are
// numbers without quaternary components.
fn levels(
    m: Moduli,
    top: usize,
    mut n: usize,
    mut e: usize,
    v: &mut [u8],
    mut x: Element,
) -> Element
    requires { Holds m.a m.b (length v.old) × (top < m.b) × (n ≡ size (level m.a m.b top)) × (e ≡ even_to m.a m.b top) }
    ensures { result ≡ weights.weigh_on (level m.a m.b top) (folds.both m.a m.b top) v.old ++ drop (m.a + top) x }
{
    for j in (0..top).rev() {
        n /= 4;
        e /= 2;
        x[m.a + j] = fold(n - e, n + e, v);
    }
    halves(m, m.a, &mut v[..2 * n], x)
}

// The first level, at which only the numbers of sign 1 have weights: the blocks of the digits 2 and 3 are
// added to that of 0, and what all four blocks add to the component is answered.
fn fold_first(p: usize, m: usize, v: &mut [u8]) -> u8
    requires { 3 * p + m ≤ length v.old }
    ensures sum { result ≡ (weights.total (first_tops p m v.old) + weights.total (stretch p m v.old)) % 4 }
    ensures left { v.new ≡ first_plus p m v.old ++ drop p v.old }
{
    let (zero, rest) = v.split_at_mut(p);
    let c = gather_three(zero, &rest[m..m + p], &rest[m + p..m + 2 * p]);
    (c + total(&rest[..m])) % 4
}

// A later level: the weights that are left for the numbers of sign 1, and behind them those for the numbers
// whose sign is not 3.
fn fold(p: usize, m: usize, v: &mut [u8]) -> u8
    requires { 4 * p + 4 * m ≤ length v.old }
    ensures sum { result ≡ (weights.total (plus_tops p m v.old) + weights.total (low_tops p m v.old)) % 4 }
    ensures left { v.new ≡ next_plus p m v.old ++ (next_low p m v.old ++ drop (p + m) v.old) }
{
    let (zero, rest) = v.split_at_mut(p);
    let (one, rest) = rest.split_at_mut(m);
    let rest = &rest[..];
    let y = &rest[..p];
    let z = &rest[p..2 * p];
    let w = &rest[2 * p + 3 * m..3 * p + 3 * m];
    let c = gather::<0, 2, 3, 3>(zero, y, z, w);
    let y = &rest[2 * p..2 * p + m];
    let z = &rest[2 * p + m..2 * p + 2 * m];
    let w = &rest[2 * p + 2 * m..2 * p + 3 * m];
    (c + gather::<1, 0, 1, 2>(one, y, z, w)) % 4
}

// The sum of the weights, modulo 4.
fn total(v: &[u8]) -> u8
    ensures { result ≡ weights.total v.now % 4 }
{
    v.iter().fold(0u8, |c, x| c.wrapping_add(*x)) % 4
}

// Two blocks of weights, of the digits 2 and 3, are added to a third one; the sum of what they have, each times
// its digit, modulo 4. A loop beside that of `gather`, since at the first level there is no fourth block to read.
fn gather_three(x: &mut [u8], y: &[u8], z: &[u8]) -> u8
    requires { (length y.now ≡ length x.old) × (length z.now ≡ length x.old) }
    ensures sum { result ≡ weights.total (weights.added (double y.now) (triple z.now)) % 4 }
    ensures left { x.new ≡ weights.added x.old (weights.added y.now z.now) }
{
    let mut c: u8 = 0;
    for (i, x) in x.iter_mut().enumerate() {
        let f = y[i] % 4;
        let g = z[i] % 4;
        c = c.wrapping_add(2 * f + 3 * g);
        *x = (*x % 4 + f + g) % 4;
    }
    c % 4
}

// Three blocks of weights are added to a fourth one; the sum of what all four have, each times the digit of
// its block, modulo 4.
fn gather<const A: u8, const B: u8, const C: u8, const D: u8>(
    x: &mut [u8],
    y: &[u8],
    z: &[u8],
    w: &[u8],
) -> u8
    requires digits { (A < 4) × (B < 4) × (C < 4) × (D < 4) }
    requires long { (length y.now ≡ length x.old) × (length z.now ≡ length x.old) × (length w.now ≡ length x.old) }
    ensures sum { result ≡ (A * weights.total x.old + B * weights.total y.now + (C * weights.total z.now + D * weights.total w.now)) % 4 }
    ensures left { x.new ≡ weights.added (weights.added x.old y.now) (weights.added z.now w.now) }
{
    let mut c: u8 = 0;
    for (i, x) in x.iter_mut().enumerate() {
        let e = *x % 4;
        let f = y[i] % 4;
        let g = z[i] % 4;
        let h = w[i] % 4;
        c = c.wrapping_add(A * e + B * f + C * g + D * h);
        *x = (e + f + g + h) % 4;
    }
    c % 4
}
