// The test of bytes as it was: a pass for the highest byte, and where that is above 1 one for its place. Crate coding
// tests a word on the way to its syndrome, and searches a bad one by blocks. Place 0 for none is what bad_from says.
ghost use Rattle.std.specs.Prelude.{◌≡◌, ◌∷◌, [], ◌<◌, ◌≤◌, length};
ghost use Rattle.coder_theory.specs.State.{places_in};
ghost use Rattle.coder_theory.specs.Reasons.{first_reason, bad_byte, bad_place};
ghost use Rattle.coder_theory.specs.Calls.{answer_of, write_reasons};
ghost use Rattle.checks.specs.Told.{told};

use checks::refusal::Refusal;
use checks::{check, fit};
use coder_theory::Record;

// 21, 22, 10, 2, 3 and 4 of a word and an output that is to hold one. The record is asked twice, as it was then: for
// its length, and by `sizes`.
pub(crate) fn written(record: Record, word: &[u8], room: usize) -> Result<(), Refusal>
    ensures { told result ≡ answer_of (first_reason (write_reasons «record» (places_in «record») word.now room)) }
{
    let size = fit::lengths(record);
    let n = size.places;
    check::sizes(record, n, word, n, room)?;
    byte(word)
}

// 4 of a word.
fn byte(word: &[u8]) -> Result<(), Refusal>
    requires { length word.now < 4294967296 }
    ensures { told result ≡ answer_of (first_reason (bad_byte word.now ∷ [])) }
{
    let p = bad_place(word);
    if p == 0 {
        return Ok(());
    }
    Err(Refusal::BadByte(p))
}

// The first place of a byte above 1, or 0.
fn bad_place(word: &[u8]) -> u32
    requires { length word.now < 4294967296 }
    ensures { result ≡ bad_place word.now }
{
    if highest(word) <= 1 {
        return 0;
    }
    first_bad(word)
}

// The highest byte, or 0.
fn highest(word: &[u8]) -> u8
    ensures { result ≤ 1 → bad_place word.now ≡ 0 }
{
    let mut most: u8 = 0;
    for i in 0..word.len() {
        most = larger(most, word[i]);
    }
    most
}

// The larger of two bytes.
fn larger(a: u8, b: u8) -> u8
    ensures { (a ≤ result) × (b ≤ result) }
{
    if a < b { b } else { a }
}

// The first place of a byte above 1, or 0, byte by byte.
fn first_bad(word: &[u8]) -> u32
    requires { length word.now < 4294967296 }
    ensures { result ≡ bad_place word.now }
{
    for i in 0..word.len() {
        if 1 < word[i] {
            return (i + 1) as u32;
        }
    }
    0
}
