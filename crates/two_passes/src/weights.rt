// The message's part of a syndrome. The bytes are laid out as weights, in the order in which crate folds
// sums them: a weight for each place, so that there is no table and no search, and every loop runs
// over neighbouring bytes. Zero and the units, which are no part of the message, have the weight 0
// and stand at the head of each segment. The functions behind the sum take its numbers and go by indexes of the word
// and of the array, as they did then, and not by parts of them: so the compiler makes them part of the sum.
ghost use Rattle.std.specs.Prelude.{◌≡◌, ℕ, true, false, ◌++◌, ◌∷◌, ◌+◌, ◌-◌, ◌*◌, ◌%◌, ◌<◌, ◌≤◌, ◌==◌, length, take, drop};
ghost use Rattle.group_theory.specs.Group.{moduli};
ghost use Rattle.layout_theory.specs.Choice.{pick};
ghost use Rattle.layout_theory.specs.Layout.{message};
ghost use Rattle.layout_theory.specs.Calls.{shape_for};
ghost use Rattle.blocks_theory.specs.Blocks.{plus, even, level, plus_to};
ghost use Rattle.folds_theory.specs.Folds.{room, Holds};
ghost use Rattle.words_theory.specs.Syndrome.{syndrome_over};
ghost use Rattle.loops_theory.specs.Spread.{spread, row, HoldsMessage};

use folds::{ROOM6, ROOM10, ROOM12};
use group::{Element, Moduli};
use parameters::Shape;

// A message at the front of a word.
#[derive(Clone, Copy)]
pub(crate) struct Message<'a> {
    m: Moduli,
    // how many elements the group has
    count: usize,
    // how many places of the message stand singly, and not in pairs
    part: usize,
    word: &'a [u8],
    ghost whole: { HoldsMessage m.a m.b count part (length word.now) },
}

impl<'a> Message<'a> {
    // The message of a code's word.
    pub(crate) fn new(h: Shape, word: &'a [u8]) -> Self
        requires { ((t : ℕ) × (r : ℕ) × (h ≡ shape_for t r)) × (0 < h.places) × (h.message ≤ length word.now) }
        ensures { (result.m.a ≡ h.a) × (result.m.b ≡ h.b) × (result.word.now ≡ word.now) }
    {
        Message {
            m: Moduli { a: h.a, b: h.b },
            count: h.places as usize + 1,
            part: h.binary as usize - h.a,
            word,
        }
    }

    // The sum of the message's places: each single's byte and each pair's digit times its element. The array of
    // weights has room for codes up to t = 6, 10 or 12, so that a short code does not pay for the longest: three calls,
    // since a const argument cannot be computed.
    pub(crate) fn sum(&self) -> Element
        ensures { result ≡ syndrome_over (moduli self.now.m.a self.now.m.b) (message (moduli self.now.m.a self.now.m.b)) self.now.word.now }
    {
        let t = self.m.a + 2 * self.m.b;
        if t <= 6 {
            return self.summed::<ROOM6>();
        }
        if t <= 10 {
            return self.summed::<ROOM10>();
        }
        self.summed::<ROOM12>()
    }

    // The same by an array of N weights.
    fn summed<const N: usize>(&self) -> Element
        requires { Holds self.now.m.a self.now.m.b N }
        ensures { result ≡ syndrome_over (moduli self.now.m.a self.now.m.b) (message (moduli self.now.m.a self.now.m.b)) self.now.word.now }
    {
        let mut v = [0u8; N];
        lay(self.m.a, self.m.b, self.count, self.part, self.word, &mut v);
        folds::weighted(self.m, v)
    }
}

// Lays out the weights of all places of the message: those of the pairs, then those of the singles.
fn lay(a: usize, b: usize, count: usize, part: usize, word: &[u8], v: &mut [u8])
    requires { HoldsMessage a b count part (length word.now) × Holds a b (length v.old) }
    ensures { take count v.new ≡ spread true (moduli a b) (plus (level a b b)) (drop part word.now) ++ spread false (moduli a b) (even (level a b b)) word.now }
{
    pairs(a, b, count, part, word, v);
    singles(a, b, count, part, word, v);
}

// The weights of the pairs: for each quaternary component a segment, up to the unit of the next one.
fn pairs(a: usize, b: usize, count: usize, part: usize, word: &[u8], v: &mut [u8])
    requires { HoldsMessage a b count part (length word.now) × Holds a b (length v.old) }
    ensures { take (2 * plus_to a b b) v.new ≡ spread true (moduli a b) (plus (level a b b)) (drop part word.now) }
{
    let mut p: usize = 0;
    let mut e = 1usize << a;
    let mut at = part;
    for _ in 0..b {
        let n = 3 * p + e - 1;
        pair_segment(word, at, v, p, n);
        at += 2 * n;
        p = 4 * p + e;
        e = 2 * e;
    }
}

// The weight 0 of a unit, behind p pairs, and the weights of the n pairs after it.
fn pair_segment(word: &[u8], at: usize, v: &mut [u8], p: usize, n: usize)
    requires { (at + 2 * n ≤ length word.now) × (2 * p + (2 + 2 * n) ≤ length v.old) × (length v.old ≤ room) }
    ensures { take (2 * p + (2 + 2 * n)) v.new ≡ take (2 * p) v.old ++ 0 ∷ 0 ∷ row true n (drop at word.now) }
{
    v[2 * p] = 0;
    v[2 * p + 1] = 0;
    if n == 0 {
        return;
    }
    digits(word, at, v, 2 * p + 2, n);
    v[2 * p + 1 + 2 * n] = 0;
}

// The digits of n pairs, each followed by a 0, but for the last 0: what would be the digit of that place and
// the next one is not asked for, since there may be no next one.
fn digits(word: &[u8], at: usize, v: &mut [u8], k: usize, n: usize)
    requires { (0 < n) × (at + 2 * n ≤ length word.now) × (k + 2 * n ≤ length v.old) × (length v.old ≤ room) }
    ensures { take (k + (2 * n - 1)) v.new ≡ take k v.old ++ take (2 * n - 1) (row true n (drop at word.now)) }
{
    let m = 2 * n - 1;
    for i in 0..m {
        let d = gray::digit(word[at + i], word[at + i + 1]);
        v[k + i] = every_other(i, d);
    }
}

// The digit d at an even index, and 0 at an odd one: by a mask, which becomes a constant in vector code.
fn every_other(i: usize, d: u8) -> u8
    ensures { result ≡ pick (i % 2 == 0) (d % 4) 0 }
{
    let odd = (i % 2) as u8;
    d & (3 - 3 * odd)
}

// The weights of the singles, behind those of the pairs: zero, for each binary component a segment, and the
// others, among which there is no unit.
fn singles(a: usize, b: usize, count: usize, part: usize, word: &[u8], v: &mut [u8])
    requires { HoldsMessage a b count part (length word.now) × Holds a b (length v.old) }
    ensures { take count v.new ≡ take (2 * plus_to a b b) v.old ++ spread false (moduli a b) (even (level a b b)) word.now }
{
    let e = part + a + 1;
    let start = count - e;
    v[start] = 0;
    let mut n: usize = 1;
    let mut at: usize = 0;
    for _ in 0..a {
        single_segment(word, at, v, start + n, n - 1);
        at += n - 1;
        n = 2 * n;
    }
    bytes(word, at, v, start + n, e - n);
}

// The weight 0 of a unit, at index k, and the n bytes after it.
fn single_segment(word: &[u8], at: usize, v: &mut [u8], k: usize, n: usize)
    requires { (at + n ≤ length word.now) × (k + (1 + n) ≤ length v.old) × (length v.old ≤ room) }
    ensures { take (k + (1 + n)) v.new ≡ take k v.old ++ 0 ∷ row false n (drop at word.now) }
{
    v[k] = 0;
    bytes(word, at, v, k + 1, n);
}

// n bytes as they stand.
fn bytes(word: &[u8], at: usize, v: &mut [u8], k: usize, n: usize)
    requires { (at + n ≤ length word.now) × (k + n ≤ length v.old) × (length v.old ≤ room) }
    ensures { take (k + n) v.new ≡ take k v.old ++ row false n (drop at word.now) }
{
    for i in 0..n {
        v[k + i] = word[at + i];
    }
}
