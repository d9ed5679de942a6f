// Words combined: binary places modulo 2, pairs modulo 4. Parts 1 and 3 of the layout are single
// places, parts 2 and 4 are pairs, each with two places one after the other; of a shortened code part 1
// is shorter, or there is none and part 2 is shorter by whole pairs. A sum of two bytes that wraps at 256
// leaves the same remainders.
ghost use Rattle.std.specs.Prelude.{◌≡◌, ◌++◌, ◌-◌, ◌%◌, ◌≤◌, length, drop};
ghost use Rattle.group_theory.specs.Group.{moduli};
ghost use Rattle.layout_theory.specs.Calls.{shape_for};
ghost use Rattle.shortened_theory.specs.Code.{shortened_combine};
ghost use Rattle.loops_theory.specs.Writing.{Cut, SumsTwo, SumsFour};
ghost use Rattle.combining.specs.Ends.{EndsAt};

use parameters::Code;

// Binary places.
fn singles(first: &[u8], second: &[u8], out: &mut [u8])
    requires { (length first.now ≡ length out.old) × (length second.now ≡ length out.old) }
    ensures { SumsTwo first.now second.now 0 (length out.old) out.new }
{
    for (i, b) in out.iter_mut().enumerate() {
        *b = first[i].wrapping_add(second[i]) % 2;
    }
}

// Pairs: the first place of pair k has the index 2 k. They are counted, for a loop by `step_by(2)` tests its end
// twice and does not become vector code.
fn pairs(first: &[u8], second: &[u8], out: &mut [u8])
    requires { (length first.now ≡ length out.old) × (length second.now ≡ length out.old) × (length out.old % 2 ≡ 0) }
    ensures { SumsFour first.now second.now 0 (length out.old) out.new }
{
    for k in 0..out.len() / 2 {
        let i = 2 * k;
        let d = gray::digit(first[i], first[i + 1]);
        let e = gray::digit(second[i], second[i + 1]);
        let [b, c] = gray::places(d.wrapping_add(e) % 4);
        out[i] = b;
        out[i + 1] = c;
    }
}

// Where the four parts of what is left of a word end: the binary places of the message, its pairs, the binary check
// places and the check pairs.
struct Ends {
    part: usize,
    message: usize,
    units: usize,
    places: usize,
}

impl Ends {
    // The ends of a code's parts, where its first s places are left out.
    fn of(code: Code) -> Ends
        requires { Cut (shape_for code.t code.r) code.s }
        ensures { EndsAt (shape_for code.t code.r) code.s result.part result.message result.units result.places }
    {
        let h = code.shape();
        let s = code.s as usize;
        let message = h.message as usize - s;
        Ends {
            part: (h.binary as usize - h.a).saturating_sub(s),
            message,
            units: message + h.a,
            places: h.places as usize - s,
        }
    }
}

// Writes two words combined over the front of `out`, of a code without its first s places.
pub(crate) fn combine(code: Code, first: &[u8], second: &[u8], out: &mut [u8])
    requires cut { Cut (shape_for code.t code.r) code.s }
    requires first { (shape_for code.t code.r).places - code.s ≤ length first.now }
    requires second { (shape_for code.t code.r).places - code.s ≤ length second.now }
    requires room { (shape_for code.t code.r).places - code.s ≤ length out.old }
    ensures { let h = shape_for code.t code.r in out.new ≡ shortened_combine (moduli h.a h.b) code.s first.now second.now ++ drop (h.places - code.s) out.old }
{
    let Ends {
        part,
        message,
        units,
        places,
    } = Ends::of(code);
    singles(&first[..part], &second[..part], &mut out[..part]);
    pairs(
        &first[part..message],
        &second[part..message],
        &mut out[part..message],
    );
    singles(
        &first[message..units],
        &second[message..units],
        &mut out[message..units],
    );
    pairs(
        &first[units..places],
        &second[units..places],
        &mut out[units..places],
    );
}
