// Every opening with t from 0 to 13 and r from 0 to 14, and a call for C with each. For each code that is
// admitted, up to 4,095 places, rounds of calls on drawn words, and rounds in some of its shortened codes;
// then every word of the short codes. The file `stdout` beside src/ was written by a second program, which
// shares no code with the engine: that this program prints the same text is the check.
#![tactic(auto)]

mod alter;
mod digest;
mod draw;
mod every;
mod lines;
mod openings;
mod round;
mod shorter;

ghost use Rattle.std.specs.Prelude.{◌≤◌};

use crate::draw::Draw;
use crate::lines::Calls;
use crate::openings::made;
use crate::round::buffered;
use coder::Record;
use std::io;

fn main(rt: HostRuntime) -> io::Result<()> {
    for t in 0..14 {
        with_each_r(&rt, t)?;
    }
    every::words(&rt)
}

fn with_each_r(rt: &impl Print, t: u32) -> io::Result<()>
    requires { t ≤ 13 }
{
    for r in 0..15 {
        open(rt, t, r)?;
    }
    Ok(())
}

// The bounds keep the state that the rounds start from within its type.
fn open(rt: &impl Print, t: u32, r: u32) -> io::Result<()>
    requires { (t ≤ 13) × (r ≤ 14) }
{
    openings::with_each_s(rt, t, r)?;
    let o = coder::open(t, r, 0);
    lines::opening(rt, t, r, 0, o)?;
    // By the call for C, to which r = 0 is r = t.
    Calls::new(rt, made(t, r, 0)).third(1, 2)?;
    // r = 0 opens a code whose rounds come under the r in force.
    if r != 0 && o.refusal == 0 {
        return rounds(rt, o.record, &mut Draw::new(1 + 100 * t + r));
    }
    Ok(())
}

// Three rounds of a code and twelve s, of which three are drawn; with t = 11 and 12, whose words are long, one round
// and one drawn s, so that the whole text can still be read.
fn rounds(rt: &impl Print, code: Record, draw: &mut Draw) -> io::Result<()> {
    let (own, shortened) = if code.t > 10 { (1, 10) } else { (3, 12) };
    for _ in 0..own {
        buffered(rt, code, draw)?;
    }
    shorter::rounds(rt, code, shortened, draw)
}
