// The place at fault in a word of a shortened code. With s = 0 it is found on the caller's own bytes
// (whole.rt); else on the word filled with s zeros, in an array as long as the code needs (fill.rt). Every
// input is answered.
ghost use Rattle.std.specs.Prelude.{◌≡◌};
ghost use Rattle.shortened_theory.specs.Calls.{shortened_fault_for};

use crate::{fill, whole};
use parameters::Code;

// The place at fault in the filled word, by the number that it had before renumbering; 0 for a
// codeword, and where the word is none of the code.
pub(crate) fn fault(code: Code, word: &[u8]) -> u32
    ensures { result ≡ shortened_fault_for code.t code.r code.s word.now }
{
    if !code.fits_word(word.len()) {
        return 0;
    }
    if code.s == 0 {
        return whole::fault(code, word);
    }
    fill::fault(code, word)
}
