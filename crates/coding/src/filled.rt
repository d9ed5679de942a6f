// A word whose first places are left out, laid out as weights: what is read is said of the word filled with as many
// zeros. Every loop runs over neighbouring bytes.
ghost use Rattle.std.specs.Prelude.{◌≡◌, ◌+◌, ◌-◌, ◌/◌, ◌%◌, ◌<◌, ◌≤◌, true, false, ◌∷◌, length, drop, ◌==◌};
ghost use Rattle.layout_theory.specs.Choice.{pick};
ghost use Rattle.folds_theory.specs.Folds.{room};
ghost use Rattle.shortened_theory.specs.Code.{fill};
ghost use Rattle.loops_theory.specs.Spread.{row};
ghost use Rattle.loops_theory.specs.Passing.{Highest, Says};

// The word and how many places are left out in front of it.
#[derive(Clone, Copy)]
pub(crate) struct Filled<'a> {
    pub(crate) d: usize,
    pub(crate) word: &'a [u8],
    ghost few: { d ≤ room },
}

impl Filled<'_> {
    // The same, with a constant where no place is left out, so that nothing of the cutting is compiled.
    pub(crate) fn cut<const CUT: bool>(self) -> Self
        requires { CUT ≡ false → self.d ≡ 0 }
        ensures { (result.d ≡ self.entry.d) × (result.word.now ≡ self.entry.word.now) }
    {
        let d = if CUT { self.d } else { 0 };
        Filled { d, word: self.word }
    }

    // The weight 0 of a unit, and the weights of the pairs from an index on. The answer is whether the bytes of these
    // pairs are 0 or 1.
    pub(crate) fn pair_segment(&self, at: usize, v: &mut [u8]) -> bool
        requires { (2 ≤ length v.old) × (length v.old % 2 ≡ 0) × (at + (length v.old - 2) ≤ self.now.d + length self.now.word.now) × (length v.old ≤ room) × ((self.now.d - at) % 2 ≡ 0) }
        ensures told { Says result (fill self.now.d self.now.word.now) at (at + (length v.old - 2)) }
        ensures laid { v.new ≡ 0 ∷ 0 ∷ row true (length v.old / 2 - 1) (drop at (fill self.now.d self.now.word.now)) }
    {
        let left = self.d.saturating_sub(at).min(v.len() - 2);
        v[..2 + left].fill(0);
        let first = at.saturating_sub(self.d);
        let kept = v.len() - (2 + left);
        row_of_pairs(&self.word[first..first + kept], &mut v[2 + left..])
    }

    // The weight 0 of a unit, and the bytes from an index on.
    pub(crate) fn single_segment(&self, at: usize, v: &mut [u8])
        requires { (1 ≤ length v.old) × (at + (length v.old - 1) ≤ self.now.d + length self.now.word.now) × (length v.old ≤ room) }
        ensures { v.new ≡ 0 ∷ row false (length v.old - 1) (drop at (fill self.now.d self.now.word.now)) }
    {
        v[0] = 0;
        self.bytes(at, &mut v[1..]);
    }

    // The bytes from an index on as they stand, 0 for those that are left out.
    pub(crate) fn bytes(&self, at: usize, v: &mut [u8])
        requires { (at + length v.old ≤ self.now.d + length self.now.word.now) × (length v.old ≤ room) }
        ensures { v.new ≡ row false (length v.old) (drop at (fill self.now.d self.now.word.now)) }
    {
        let left = self.d.saturating_sub(at).min(v.len());
        v[..left].fill(0);
        let first = at.saturating_sub(self.d);
        let kept = v.len() - left;
        v[left..].copy_from_slice(&self.word[first..first + kept]);
    }
}

// The weights of pairs. The last one is read alone, since there is no byte after it. The answer is whether these bytes
// are 0 or 1.
fn row_of_pairs(word: &[u8], v: &mut [u8]) -> bool
    requires { (length word.now ≡ length v.old) × (length v.old % 2 ≡ 0) }
    ensures told { Says result word.now 0 (length word.now) }
    ensures laid { v.new ≡ row true (length v.old / 2) word.now }
{
    if v.is_empty() {
        return true;
    }
    let m = v.len() - 2;
    let x = digits(word, &mut v[..m]);
    let z = last_pair(&word[m..], &mut v[m..]);
    x.max(z) <= 1
}

// The digits of pairs, each followed by a 0: the digits of all neighbours, every other one masked away. The
// highest byte is answered.
fn digits(word: &[u8], v: &mut [u8]) -> u8
    requires { (length v.old < length word.now) × (length v.old % 2 ≡ 0) }
    ensures most { Highest word.now 0 (length v.old) result }
    ensures laid { v.new ≡ row true (length v.old / 2) word.now }
{
    // The neighbours by a slice of their own: with `word[i + 1]` the compiler makes half as many instructions again.
    let next = &word[1..];
    let mut most: u8 = 0;
    for (i, x) in v.iter_mut().enumerate() {
        let b = word[i];
        most = most.max(b);
        *x = every_other(i, gray::digit(b, next[i]));
    }
    most
}

// The digit of one pair, and a 0.
fn last_pair(pair: &[u8], v: &mut [u8]) -> u8
    requires { (length pair.now ≡ 2) × (length v.old ≡ 2) }
    ensures most { Highest pair.now 0 2 result }
    ensures laid { v.new ≡ row true 1 pair.now }
{
    let b = pair[0];
    let c = pair[1];
    v[0] = gray::digit(b, c);
    v[1] = 0;
    b.max(c)
}

// The digit x at an even index, and 0 at an odd one: by a mask, which becomes a constant in vector code.
fn every_other(i: usize, x: u8) -> u8
    ensures { result ≡ pick (i % 2 == 0) (x % 4) 0 }
{
    let odd = (i % 2) as u8;
    x & (3 - 3 * odd)
}
