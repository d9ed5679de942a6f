// Words of a shortened code, filled with s zeros in front so that they are words of the whole code, and
// the place at fault in them. The functions here are called with an allowed s and a word of its length (`Fits`);
// the array has room for a word of the whole code and holds zeros (`Blank`).
ghost use Rattle.std.specs.Prelude.{◌≡◌, ◌+◌, ◌≤◌, length, take};
ghost use Rattle.layout_theory.specs.Parameters.{places_of, moduli_for};
ghost use Rattle.folds_theory.specs.Folds.{room};
ghost use Rattle.words_theory.specs.Words.{zero_word};
ghost use Rattle.shortened_theory.specs.Code.{fill};
ghost use Rattle.shortened_theory.specs.Calls.{Fits};
ghost use Rattle.two_passes.specs.Calls as words;
ghost use Rattle.two_passes.specs.Calls.{Blank};

use crate::whole;
use folds::{ROOM6, ROOM10, ROOM12};
use parameters::Code;

// Puts a word behind s zeros.
fn put(s: usize, word: &[u8], v: &mut [u8])
    requires { Blank (s + length word.now) v.old }
    ensures { take (s + length word.now) v.new ≡ fill s word.now }
{
    for i in 0..word.len() {
        v[s + i] = word[i];
    }
}

// The array for the filled word has one of three lengths, for codes up to t = 6, 10 and 12, so that a short code
// does not pay for the longest: three calls, since a const argument cannot be computed.
pub(crate) fn fault(code: Code, word: &[u8]) -> u32
    requires { Fits code.t code.r code.s (places_of code.t) (length word.now) }
    ensures { result ≡ words.fault (moduli_for code.t code.r) (fill code.s word.now) }
{
    if code.t <= 6 {
        return filled::<ROOM6>(code, word);
    }
    if code.t <= 10 {
        return filled::<ROOM10>(code, word);
    }
    filled::<ROOM12>(code, word)
}

// The same with an array of N bytes.
fn filled<const N: usize>(code: Code, word: &[u8]) -> u32
    requires { Fits code.t code.r code.s (places_of code.t) (length word.now) × Blank (places_of code.t) (zero_word N) × (N ≤ room) }
    ensures { result ≡ words.fault (moduli_for code.t code.r) (fill code.s word.now) }
{
    let s = code.s as usize;
    let n = s + word.len();
    let mut v = [0u8; N];
    let filled = &mut v[..];
    put(s, word, filled);
    whole::fault(code, &filled[..n])
}
