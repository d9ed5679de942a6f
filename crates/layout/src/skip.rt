// Zero and the units stand among the elements of their sign, but not in the message. So an index of a
// part of the message and the index among all elements of its sign differ by how many of them stand
// before it. The unit of a component stands where the numbers without that component end. Both loops go
// from the last unit down, since most indices stand behind it.
ghost use Rattle.std.specs.Prelude.{◌≡◌, ◌+◌, ◌-◌, ◌≤◌, ◌<◌, ◌^◌, MatchResult};
ghost use Rattle.blocks_theory.specs.Indices.{units_of, unit_index, Past};

use crate::descent::count;
use blocks_theory::{Kind, Sign};
use group::Moduli;

// How many units have a sign: the binary ones sign 0, the quaternary ones sign 1.
fn units(m: Moduli, sign: Sign) -> usize
    ensures { result ≡ units_of sign m.a m.b }
{
    match sign {
        Sign::Zero => m.a,
        _ => m.b,
    }
}

// The index of unit i among all elements of its sign.
fn unit_index(m: Moduli, sign: Sign, i: usize) -> u32
    requires { (m.a + m.b ≤ 12) × (i < units_of sign m.a m.b) }
    ensures { result ≡ unit_index sign m.a m.b i }
{
    match sign {
        Sign::Zero => 1u32 << i,
        _ => count(m, Kind::Plus, i),
    }
}

// The index among all elements of a sign of the one that has i before it that are no units.
pub(crate) fn with_units(m: Moduli, sign: Sign, i: u32) -> u32
    requires { (m.a + m.b ≤ 12) × (i ≤ 2 ^ 24) }
    ensures { (i ≤ result) × Past sign m.a m.b (result - i) result }
{
    for c in (0..units(m, sign)).rev() {
        let k = i + c as u32 + 1;
        if unit_index(m, sign, c) < k {
            return k;
        }
    }
    i
}

// Index k among the units: Ok(c) where unit c stands there, and else Err of how many stand before it.
pub(crate) fn find(m: Moduli, sign: Sign, k: u32) -> Result<u32, u32>
    requires { m.a + m.b ≤ 12 }
    ensures { MatchResult result (λ c. (c < units_of sign m.a m.b) × (k ≡ unit_index sign m.a m.b c)) (λ c. Past sign m.a m.b c k) }
{
    for c in (0..units(m, sign)).rev() {
        let at = unit_index(m, sign, c);
        if at == k {
            return Ok(c as u32);
        }
        if at < k {
            return Err(c as u32 + 1);
        }
    }
    Err(0)
}
