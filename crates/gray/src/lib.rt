// The Gray map: the digit of two places, and the two places of a digit (crate words_theory,
// specs/Digits.antt).
#![tactic(auto)]

ghost use Rattle.std.specs.Prelude.{◌≡◌, []};
ghost use Rattle.words_theory.specs.Digits as digits;
ghost use Rattle.words_theory.specs.Digits.{gray};

// The digit of two places: by two choices that need no jump, so that a loop of it becomes vector code.
pub fn digit(b: u8, c: u8) -> u8
    ensures { result ≡ digits.digit b c }
{
    let low = u8::from(c != 0);
    if b != 0 {
        return 3 - low;
    }
    low
}

// The two places of a digit: by comparisons, for the same reason.
pub fn places(d: u8) -> [u8; 2]
    ensures { result ≡ gray d [] }
{
    [u8::from(2 <= d), u8::from(d == 1 || d == 2)]
}
