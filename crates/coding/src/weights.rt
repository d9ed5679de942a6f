// The message's part of the pass over a word. The bytes are laid out as weights, in the order in which crate
// folds sums them: a weight for each place, so that there is no table and no search, and every loop runs over
// neighbouring bytes. Zero and the units, which are no part of the message, have the weight 0 and stand at the
// head of each segment. The first d places are left out of the word, and have the weight 0 too; what is read
// is said of the word filled with d zeros. On the way the bytes are tested: those of singles, which are copied
// as they stand, among the weights, those of pairs as they are read. The pass ends where one is above 1.
ghost use Rattle.std.specs.Prelude.{◌≡◌, ◌+◌, ◌-◌, ◌*◌, ◌%◌, ◌≤◌, true, false, ◌++◌, length, take, drop};
ghost use Rattle.group_theory.specs.Group.{moduli};
ghost use Rattle.blocks_theory.specs.Blocks.{plus, even, level, plus_to};
ghost use Rattle.folds_theory.specs.Folds.{room, Holds};
ghost use Rattle.shortened_theory.specs.Code.{fill};
ghost use Rattle.loops_theory.specs.Spread.{spread, message_in, HoldsMessage, HoldsFilled};
ghost use Rattle.loops_theory.specs.Passing.{BitsIn, Tells};
ghost use Rattle.coding.specs.Laid.{Sums};

use crate::bits;
use crate::filled::Filled;
use folds::{ROOM6, ROOM10, ROOM12};
use group::{Element, Moduli};
use parameters::Shape;

// A message at the front of a word of which the first places may be left out.
#[derive(Clone, Copy)]
struct Message<'a> {
    m: Moduli,
    // how many elements the group has
    count: usize,
    // how many places stand singly in the message, and not in pairs
    part: usize,
    filled: Filled<'a>,
    // how many bytes of the filled word were tested before
    seen: usize,
    ghost whole: { HoldsMessage m.a m.b count part (length (fill filled.d filled.word.now)) },
    // what is left out beyond the singles are whole pairs
    ghost ends: { (filled.d - part) % 2 ≡ 0 },
    ghost tested: { BitsIn (fill filled.d filled.word.now) 0 seen },
}

// The sum of the places of the message at the front of a word whose first d places are left out: each single's byte
// and each pair's digit times its element. Nothing where a byte is above 1. The first `seen` bytes of the filled word
// were tested before.
pub(crate) fn message_sum(h: Shape, d: usize, word: &[u8], seen: usize) -> Option<Element>
    requires { (h.a ≤ h.binary) × HoldsFilled h.a h.b (h.places + 1) (h.binary - h.a) d word.now × BitsIn (fill d word.now) 0 seen }
    ensures { Sums h.a h.b (fill d word.now) result }
{
    let x = Message {
        m: Moduli { a: h.a, b: h.b },
        count: h.places as usize + 1,
        part: h.binary as usize - h.a,
        filled: Filled { d, word },
        seen,
    };
    if d == 0 {
        x.sum::<false>()
    } else {
        x.sum::<true>()
    }
}

impl Message<'_> {
    // The sum by an array of weights that has room for codes up to t = 6, 10 and 12: three calls, since a const argument
    // cannot be computed.
    fn sum<const CUT: bool>(&self) -> Option<Element>
        requires { CUT ≡ false → self.now.filled.d ≡ 0 }
        ensures { Sums self.now.m.a self.now.m.b (fill self.now.filled.d self.now.filled.word.now) result }
    {
        let t = self.m.a + 2 * self.m.b;
        if t <= 6 {
            return self.summed::<ROOM6, CUT>();
        }
        if t <= 10 {
            return self.summed::<ROOM10, CUT>();
        }
        self.summed::<ROOM12, CUT>()
    }

    // The same by an array of N weights. A function of its own for each N and each CUT, so that a call has one array on
    // its stack, and where no place is left out nothing of the cutting.
    #[inline(never)]
    fn summed<const N: usize, const CUT: bool>(&self) -> Option<Element>
        requires { (CUT ≡ false → self.now.filled.d ≡ 0) × Holds self.now.m.a self.now.m.b N }
        ensures { Sums self.now.m.a self.now.m.b (fill self.now.filled.d self.now.filled.word.now) result }
    {
        let x = Message {
            m: self.m,
            count: self.count,
            part: self.part,
            filled: self.filled.cut::<CUT>(),
            seen: self.seen,
        };
        let mut v = [0u8; N];
        let good = x.lay(&mut v);
        let sum = folds::weighted(self.moduli_if(good), v);
        if good { Some(sum) } else { None }
    }

    // The moduli where the word is good; else such as no code has, so that the weights of a bad word are not summed. Not
    // by an `if` around the call: an array handed by value behind a branch is copied.
    fn moduli_if(&self, good: bool) -> Moduli
        ensures whole { good ≡ true → result ≡ self.now.m }
        ensures none { good ≡ false → result.a ≡ 13 }
    {
        if good { self.m } else { Moduli { a: 13, b: 0 } }
    }

    // All weights: those of the pairs, and behind them those of the singles, which stand first in a word. The answer is
    // whether the bytes of the message are 0 or 1; where one is not, the weights are not laid out to the end.
    #[inline(always)]
    fn lay(&self, v: &mut [u8]) -> bool
        requires { Holds self.now.m.a self.now.m.b (length v.old) }
        ensures told { Tells result (fill self.now.filled.d self.now.filled.word.now) 0 (message_in self.now.m.a self.now.m.b) }
        ensures laid { result ≡ true → take self.now.count v.new ≡ spread true (moduli self.now.m.a self.now.m.b) (plus (level self.now.m.a self.now.m.b self.now.m.b)) (drop self.now.part (fill self.now.filled.d self.now.filled.word.now)) ++ spread false (moduli self.now.m.a self.now.m.b) (even (level self.now.m.a self.now.m.b self.now.m.b)) (fill self.now.filled.d self.now.filled.word.now) }
    {
        let start = self.count - (self.part + self.m.a + 1);
        if self.singles(&mut v[start..self.count]) {
            return self.pairs(&mut v[..start]);
        }
        false
    }

    // The weights of the pairs: for each quaternary component a segment, up to the unit of the next one. The answer is
    // whether the bytes of the pairs are 0 or 1.
    #[inline(always)]
    fn pairs(&self, v: &mut [u8]) -> bool
        requires { (length v.old ≡ 2 * plus_to self.now.m.a self.now.m.b self.now.m.b) × (length v.old ≤ room) }
        ensures told { Tells result (fill self.now.filled.d self.now.filled.word.now) self.now.part (message_in self.now.m.a self.now.m.b) }
        ensures laid { result ≡ true → v.new ≡ spread true (moduli self.now.m.a self.now.m.b) (plus (level self.now.m.a self.now.m.b self.now.m.b)) (drop self.now.part (fill self.now.filled.d self.now.filled.word.now)) }
    {
        let mut p: usize = 0;
        let mut e = 1usize << self.m.a;
        let mut at = self.part;
        for _ in 0..self.m.b {
            let q = 4 * p + e;
            if !self.filled.pair_segment(at, &mut v[2 * p..2 * q]) {
                return false;
            }
            at += 2 * (q - p - 1);
            p = q;
            e *= 2;
        }
        true
    }

    // The weights of the singles: zero, for each binary component a segment, and the others, among which there is no
    // unit. They are tested from the index `seen` on: no byte stands behind its weight. The answer is whether the bytes
    // of the singles are 0 or 1.
    #[inline(always)]
    fn singles(&self, v: &mut [u8]) -> bool
        requires { (length v.old ≡ self.now.part + self.now.m.a + 1) × (length v.old ≤ room) }
        ensures told { Tells result (fill self.now.filled.d self.now.filled.word.now) 0 self.now.part }
        ensures laid { v.new ≡ spread false (moduli self.now.m.a self.now.m.b) (even (level self.now.m.a self.now.m.b self.now.m.b)) (fill self.now.filled.d self.now.filled.word.now) }
    {
        v[0] = 0;
        let mut n: usize = 1;
        let mut at: usize = 0;
        for _ in 0..self.m.a {
            self.filled.single_segment(at, &mut v[n..2 * n]);
            at += n - 1;
            n *= 2;
        }
        self.filled.bytes(at, &mut v[n..]);
        bits::bits(&v[self.seen.min(v.len())..])
    }
}
