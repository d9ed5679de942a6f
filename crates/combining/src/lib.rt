// Two words combined by the group law, place by place. Every input is answered: nothing is written
// where t and r are not admitted, s is not allowed, a word is not of its length, or the output is too
// short (crate shortened_theory, specs/Calls.antt).
#![tactic(auto)]

mod sums;

ghost use Rattle.std.specs.Prelude.{◌≡◌};
ghost use Rattle.shortened_theory.specs.Calls.{shortened_combine_for};

use parameters::Code;

// Two words of a code, combined at the front of an output.
pub fn combine(code: Code, first: &[u8], second: &[u8], out: &mut [u8])
    ensures { out.new ≡ shortened_combine_for code.t code.r code.s first.now second.now out.old }
{
    if code.fits_word(first.len()) && code.fits_word(second.len()) && code.has_room(out.len()) {
        sums::combine(code, first, second, out);
    }
}
