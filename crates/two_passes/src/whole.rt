// Syndrome and place at fault in a word of a whole code, one that is not shortened: the pass over the
// word for its syndrome, the message's part by weights.rt and the check's by check_part.rt, and the place
// that it tells, by place.rt and halves.rt. Every input is answered: zero, or place 0, where t and r are not
// admitted or the word is too short. The syndrome asks for the shape and tests the length again, as it did then.
ghost use Rattle.std.specs.Prelude.{◌≡◌};
ghost use Rattle.two_passes.specs.Calls.{syndrome_for, fault_for};

use crate::weights::Message;
use crate::{check_part, place};
use group::{Element, Moduli};
use parameters::Code;

// The place at fault, told from the syndrome: for a word of bits, the one that correction changes; 0
// for a codeword, and where t and r are not admitted or the word is shorter.
pub(crate) fn fault(code: Code, word: &[u8]) -> u32
    ensures { result ≡ fault_for code.t code.r word.now }
{
    let h = code.shape();
    let n = h.places as usize;
    if n == 0 || word.len() < n {
        return 0;
    }
    let e = syndrome(code, word);
    place::fault_of(code, h, e, word)
}

// The syndrome of the first n bytes of a word; zero where t and r are not admitted or the word is
// shorter.
fn syndrome(code: Code, word: &[u8]) -> Element
    ensures { result ≡ syndrome_for code.t code.r word.now }
{
    let h = code.shape();
    let n = h.places as usize;
    let m = Moduli { a: h.a, b: h.b };
    let none = m.zero();
    if n == 0 || word.len() < n {
        return none;
    }
    let x = Message::new(h, word).sum();
    let y = check_part::read(m, &word[h.message as usize..]);
    m.add(x, y)
}
