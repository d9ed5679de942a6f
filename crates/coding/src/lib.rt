// One pass over a word: its syndrome, or the lowest place of a byte above 1; the codeword of a message, by
// the same pass; and one place flipped, in a copy or where it stands. The first s places may be left out (request C-17): what is
// read is said of the word filled with s zeros, but no such word is made. Every input is answered: nothing is
// done where t and r are not admitted, s is not allowed, a word or a message is not of its length, or an
// output is too short. What each function answers is defined in crates words_theory and shortened_theory,
// specs/Calls.antt.
#![tactic(auto)]

mod bits;
mod check;
mod filled;
mod weights;

ghost use Rattle.std.specs.Prelude.{◌≡◌, true, ◌-◌, ◌≤◌, eqb, length, MatchOption};
ghost use Rattle.layout_theory.specs.Parameters.{places_of, message_of, moduli_for};
ghost use Rattle.words_theory.specs.Words as words;
ghost use Rattle.words_theory.specs.Calls.{bad_from, if_bits, written, flip_for};
ghost use Rattle.shortened_theory.specs.Code.{shortened_syndrome, shortened_encode};
ghost use Rattle.shortened_theory.specs.Calls.{Fits, fits_word, scanned_for, encode_bad_for, shortened_encode_for};
ghost use Rattle.loops_theory.specs.Passing.{BitsIn, BadIn};

use group::{Element, Moduli};
use parameters::Code;

// The pass over a received word: its syndrome, or the lowest place of a byte above 1.
pub fn scan(code: Code, word: &[u8]) -> Result<Element, u32>
    ensures { result ≡ scanned_for code.t code.r code.s word.now }
{
    if code.fits_word(word.len()) {
        return scan_fit(code, word);
    }
    Ok(Moduli { a: 0, b: 0 }.zero())
}

// The same for a word of its length: its front is tested, and then the pass is made.
fn scan_fit(code: Code, word: &[u8]) -> Result<Element, u32>
    requires { fits_word code.t code.r code.s (length word.now) ≡ true }
    ensures { result ≡ scanned_for code.t code.r code.s word.now }
{
    let Some(seen) = bits::front(word) else {
        return Err(bits::first_bad(word, 0) as u32);
    };
    match pass(code, word, seen) {
        Some(sum) => Ok(sum),
        None => Err(bits::first_bad(word, seen) as u32),
    }
}

// The check's part, which needs no array, and the message's; nothing where a byte is above 1. The first `seen`
// bytes were tested before.
fn pass(code: Code, word: &[u8], seen: usize) -> Option<Element>
    requires { Fits code.t code.r code.s (places_of code.t) (length word.now) × (seen ≤ length word.now) × BitsIn word.now 0 seen }
    ensures { MatchOption result (BadIn word.now 0 (length word.now)) (λ x. BitsIn word.now 0 (length word.now) × (x ≡ shortened_syndrome (moduli_for code.t code.r) code.s word.now)) }
{
    let h = code.shape();
    let m = Moduli { a: h.a, b: h.b };
    let d = code.s as usize;
    let message = h.message as usize;
    let back = check::read(m, &word[message - d..])?;
    let front = weights::message_sum(h, d, word, d + seen)?;
    Some(m.add(front, back))
}

// Encodes a message into the front of an output. Where a byte is above 1 its lowest place is told, and nothing is
// written.
pub fn encode(code: Code, message: &[u8], out: &mut [u8]) -> Result<(), u32>
    ensures bad { result ≡ if_bits (encode_bad_for code.t code.r code.s message.now out.old) tt }
    ensures bytes { out.new ≡ shortened_encode_for code.t code.r code.s message.now out.old }
{
    if code.fits_message(message.len()) && code.has_room(out.len()) {
        return encode_fit(code, message, out);
    }
    Ok(())
}

// The same for a message of its length and an output with room for a word.
fn encode_fit(code: Code, message: &[u8], out: &mut [u8]) -> Result<(), u32>
    requires { Fits code.t code.r code.s (message_of code.t) (length message.now) × (places_of code.t - code.s ≤ length out.old) }
    ensures bad { result ≡ if_bits (bad_from 1 message.now) tt }
    ensures bytes { out.new ≡ written (eqb (bad_from 1 message.now) 0) (places_of code.t - code.s) (shortened_encode (moduli_for code.t code.r) code.s message.now) out.old }
{
    let h = code.shape();
    let m = Moduli { a: h.a, b: h.b };
    let d = code.s as usize;
    let Some(sum) = weights::message_sum(h, d, message, 0) else {
        return Err(bits::first_bad(message, 0) as u32);
    };
    let y = m.neg(sum);
    copy(message, &mut out[..message.len()]);
    check::write(m, y, &mut out[message.len()..]);
    Ok(())
}

// Whether every byte is 0 or 1, or else the lowest place of one above 1.
pub fn all_bits(word: &[u8]) -> Result<(), usize>
    ensures { result ≡ if_bits (bad_from 1 word.now) tt }
{
    if bits::bits(word) {
        return Ok(());
    }
    Err(bits::first_bad(word, 0))
}

// Flips one place of a word where it stands; place 0 and places beyond the word are none.
pub fn flip_in_place(place: u32, word: &mut [u8])
    ensures { word.new ≡ words.flip place word.old }
{
    if place == 0 {
        return;
    }
    let i = (place - 1) as usize;
    if i < word.len() {
        word[i] = u8::from(word[i] == 0);
    }
}

// A word with one place flipped, none for place 0, written over the front of an output that has room
// for it.
pub fn flip(word: &[u8], place: u32, out: &mut [u8])
    ensures { out.new ≡ flip_for word.now place out.old }
{
    if out.len() < word.len() {
        return;
    }
    copy(word, &mut out[..word.len()]);
    flip_in_place(place, &mut out[..word.len()]);
}

// Copies bytes. A loop: the compiler does not know of two slices that come as parameters that they lie apart, and for
// `copy_from_slice` it would ask the host for `memmove`, where the library for C needs `memcpy` and `memset` alone.
fn copy(from: &[u8], to: &mut [u8])
    requires { length to.old ≡ length from.now }
    ensures { to.new ≡ from.now }
{
    for i in 0..from.len() {
        to[i] = from[i];
    }
}
