// The sheet of a code as text: an input line is read, and the listing of its code, or a refusal, is
// written. The text is defined in crate listing_theory, specs/Sheet.antt.
//
// Nothing is required of a caller. The text goes into a buffer of the caller's as far as it fits,
// and the answer is the length of the whole text, so that a caller sees whether all was written.
#![tactic(auto)]

mod read;
mod write;

ghost use Rattle.std.specs.Prelude.{◌≡◌, length};
ghost use Rattle.listing_theory.specs.Sheet.{sheet_text, overwrite};

use listing_theory::Asked;
use write::Text;

// The whole output for an input, over the front of `out`.
pub fn sheet(input: &[u8], out: &mut [u8]) -> usize
    ensures length { result ≡ length (sheet_text input.now) }
    ensures bytes { out.new ≡ overwrite (sheet_text input.now) out.old }
{
    let mut text = Text::new(out);
    match read::line(input) {
        None => text.refusal(7),
        Some(Asked { t, r }) => {
            let used = parameters::or_hamming(t, r);
            text.answer(coder::open(t, used, 0));
        }
    }
    text.len()
}
