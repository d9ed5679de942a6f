// The layout of places: the element of a place, and the place of an element. No table is kept: an
// element's index among those of its sign follows from its digits, and the other way round (descent.rt),
// and the units before it are left out (skip.rt). What the two answer is defined in crate layout_theory,
// specs/Layout.antt and Calls.antt; why the way there is right is crate blocks_theory. No Option: place 0 for
// none is document 01's own number, and so `place_for`'s. Private functions say `a + b <= 12` each for itself,
// since the public `Moduli` is for any a and b.
#![tactic(auto)]

mod descent;
mod skip;

ghost use Rattle.std.specs.Prelude.{◌≡◌, true, false, ◌↔◌, ◌+◌, ◌*◌, ◌-◌, ◌%◌, ◌≤◌, ◌<◌, length, get_or, set, IsTrue, EachIndex, slice_index, MatchOption};
ghost use Rattle.group_theory.specs.Group.{Valid, moduli, zeros, size};
ghost use Rattle.layout_theory.specs.Parameters.{admits, moduli_for};
ghost use Rattle.layout_theory.specs.Layout.{units, places, element_at, place_of};
ghost use Rattle.layout_theory.specs.Calls.{element_for, place_for};
ghost use Rattle.layout_theory.specs.Parts.{Located};
ghost use Rattle.blocks_theory.specs.Indices.{digit_of, kind_of, numbers, standing};
ghost use Rattle.blocks_theory.specs.declared.Sign.TheVariants.{Zero, One, Three};

use blocks_theory::Sign;
use group::{Element, Moduli};
pub use layout_theory::Shape;
use parameters::Code;
pub use parameters::{admitted, shape_of};

// The parts of an admitted code's places: the moduli, how many places part 1 has, and how many a message.
#[derive(Clone, Copy)]
struct Parts {
    m: Moduli,
    part: u32,
    message: u32,
    ghost located: { Located m.a m.b part message },
}

impl Parts {
    // None where t and r are not admitted.
    fn of(code: Code) -> Option<Parts>
        ensures { MatchOption result (admits code.t code.r ≡ false) (λ p. (admits code.t code.r ≡ true) × (moduli p.m.a p.m.b ≡ moduli_for code.t code.r)) }
    {
        let s = code.shape();
        if s.places == 0 {
            return None;
        }
        let m = Moduli { a: s.a, b: s.b };
        Some(Parts {
            m,
            part: s.binary - s.a as u32,
            message: s.message,
        })
    }

    // The element of a place; zero where there is no such place.
    fn element_at(self, place: u32) -> Element
        ensures { result ≡ element_at (moduli self.m.a self.m.b) place }
    {
        if place == 0 {
            return self.m.zero();
        }
        let i = place - 1;
        if i < self.message {
            return self.message_element(i);
        }
        check_element(self.m, (i - self.message) as usize)
    }

    // The element of message place i, counted from 0.
    fn message_element(self, i: u32) -> Element
        requires { i < self.message }
        ensures { result ≡ element_at (moduli self.m.a self.m.b) (i + 1) }
    {
        if i < self.part {
            let k = skip::with_units(self.m, Sign::Zero, i + 1);
            return descent::element(self.m, Sign::Zero, k);
        }
        let k = skip::with_units(self.m, Sign::One, (i - self.part) / 2);
        descent::element(self.m, half(i - self.part), k)
    }

    // The place of an element; zero, and what is no element, have none.
    fn place_of(self, e: Element) -> u32
        ensures { result ≡ place_of (moduli self.m.a self.m.b) e }
    {
        if !is_element(self.m, e) {
            return 0;
        }
        let sign = descent::sign(self.m, e);
        let k = descent::index_of(self.m, sign, e);
        match sign {
            Sign::Zero => self.single_place(k),
            Sign::One => self.second_place(k),
            Sign::Three => self.second_place(k) - 1,
        }
    }

    // The place of the element at index k of those that are their own negatives.
    fn single_place(self, k: u32) -> u32
        requires { k < length (numbers (kind_of Zero) (moduli self.m.a self.m.b)) }
        ensures { (result < size (moduli self.m.a self.m.b)) × (element_at (moduli self.m.a self.m.b) result ≡ standing Zero (moduli self.m.a self.m.b) k) }
    {
        if k == 0 {
            return 0;
        }
        match skip::find(self.m, Sign::Zero, k) {
            Ok(c) => self.message + c + 1,
            Err(c) => k - c,
        }
    }

    // The place of z, the element at index k of those of sign 1: the second of its pair, −z before it.
    fn second_place(self, k: u32) -> u32
        requires { k < length (numbers (kind_of One) (moduli self.m.a self.m.b)) }
        ensures { (1 < result) × (result < size (moduli self.m.a self.m.b)) × (element_at (moduli self.m.a self.m.b) result ≡ standing One (moduli self.m.a self.m.b) k) × (element_at (moduli self.m.a self.m.b) (result - 1) ≡ standing Three (moduli self.m.a self.m.b) k) }
    {
        match skip::find(self.m, Sign::One, k) {
            Ok(c) => self.message + self.m.a as u32 + 2 * c + 2,
            Err(c) => self.part + 2 * (k - c) + 2,
        }
    }
}

// The sign at place i of part 2, counted from 0: −z stands first.
fn half(i: u32) -> Sign
    ensures { digit_of result + 2 * (i % 2) ≡ 3 }
{
    if i % 2 == 0 { Sign::Three } else { Sign::One }
}

// The element with one component that is not 0.
fn with_one(m: Moduli, i: usize, x: u8) -> Element
    requires { i < 12 }
    ensures { result ≡ set (zeros (moduli m.a m.b)) i x }
{
    let mut e = m.zero();
    e[i] = x;
    e
}

// The element of check place i, counted from 0: the binary units, then a pair for each quaternary unit,
// and then zero.
fn check_element(m: Moduli, i: usize) -> Element
    requires { m.a + m.b ≤ 12 }
    ensures { result ≡ get_or (places (moduli m.a m.b) (units (moduli m.a m.b))) i (zeros (moduli m.a m.b)) }
{
    if i < m.a {
        return with_one(m, i, 1);
    }
    let j = (i - m.a) / 2;
    if m.b <= j {
        return m.zero();
    }
    with_one(m, m.a + j, if (i - m.a) % 2 == 0 { 3 } else { 1 })
}

// The element of a place; zero where the code has no such place.
pub fn element_at(code: Code, place: u32) -> Element
    ensures { result ≡ element_for code.t code.r place }
{
    match Parts::of(code) {
        Some(parts) => parts.element_at(place),
        None => [0; 12],
    }
}

// The place of an element; 0 where no place of the code has it.
pub fn place_of(code: Code, e: Element) -> u32
    ensures { result ≡ place_for code.t code.r e }
{
    match Parts::of(code) {
        Some(parts) => parts.place_of(e),
        None => 0,
    }
}

// Whether each component is below its modulus.
fn is_element(m: Moduli, x: Element) -> bool
    requires { m.a + m.b ≤ 12 }
    ensures { IsTrue result ↔ Valid (moduli m.a m.b) x }
{
    let end = m.a + m.b;
    all_below(&x[..m.a], 2) && all_below(&x[m.a..end], 4) && all_below(&x[end..], 1)
}

fn all_below(s: &[u8], bound: u8) -> bool
    ensures { IsTrue result ↔ EachIndex s.now (λ k. slice_index s.now k < bound) }
{
    s.iter().all(|c| *c < bound)
}
