// Reading an input line: digits, a space, digits, a newline and nothing after.
ghost use Rattle.std.specs.Prelude.{◌≡◌, ◌≤◌, false, length, MatchOption};
ghost use Rattle.std.specs.List.{prefix_len};
ghost use Rattle.std.specs.Char.{is_ascii_digit};
ghost use Rattle.listing_theory.specs.Decimal.{value};
ghost use Rattle.listing_theory.specs.Form.{leading_digits, one_to_four, read_line};
ghost use Rattle.listing_theory.specs.Takes.{Takes};

use listing_theory::Asked;

// The value of digits. A byte below the digits counts as 0, so that nothing is required of it.
fn value_of(digits: &[u8]) -> u32
    requires { length digits.now ≤ 4 }
    ensures { result ≡ value digits.now }
{
    let mut value = 0;
    for digit in digits {
        value = value * 10 + u32::from(digit.saturating_sub(b'0'));
    }
    value
}

// How many digits the text begins with.
fn digits(s: &[u8]) -> usize
    ensures { result ≡ prefix_len is_ascii_digit s.now }
{
    s.iter().take_while(|b| b.is_ascii_digit()).count()
}

// The number of one to four digits that a text begins with, and what follows it.
fn number(s: &[u8]) -> Option<(u32, &[u8])>
    ensures { MatchOption result (one_to_four (length (leading_digits s.now)) ≡ false) (λ p. Takes s.now p.0 p.1.now) }
{
    let n = digits(s);
    if !(1..=4).contains(&n) {
        return None;
    }
    let (digits, rest) = s.split_at(n);
    Some((value_of(digits), rest))
}

// The t and r that a line asks for, if it is of the form.
pub(crate) fn line(s: &[u8]) -> Option<Asked>
    ensures { result ≡ read_line s.now }
{
    let (t, s) = number(s)?;
    let s = s.strip_prefix(b" ")?;
    let (r, s) = number(s)?;
    if s == b"\n".as_slice() {
        Some(Asked { t, r })
    } else {
        None
    }
}
