// Group arithmetic: elements as twelve component bytes, a of them modulo 2, the next b modulo 4, the
// others unused and 0. Every function answers for every input: a component out of range counts by
// its remainder. What each one means is in crate group_theory, specs/, its laws in proofs/Laws.antt and
// Numbers.antt. Callers rely on those laws and not on how the sums are made.
#![tactic(auto)]

ghost use Rattle.std.specs.Prelude.{◌≡◌, ◌<◌, get_or};
ghost use Rattle.group_theory.specs.Group.{one, radix, moduli, zeros, sum, negative, times, number};
ghost use Rattle.group_theory.specs.Sign.{all_zero, first_of};

// "An element is held as its list of components."
pub type Element = [u8; 12];

// Of which moduli the components are: a of them 2, the next b of them 4; the others are unused. Any two numbers
// may stand here. Callers make it of the two fields of a shape: a `From` would have this crate know the layout.
#[derive(Clone, Copy)]
pub struct Moduli {
    pub a: usize,
    pub b: usize,
}

impl Moduli {
    // The zero element.
    pub fn zero(self) -> Element
        ensures { result ≡ zeros (moduli self.a self.b) }
    {
        [0u8; 12]
    }

    // The sum of two elements.
    pub fn add(self, x: Element, y: Element) -> Element
        ensures { result ≡ sum (moduli self.a self.b) x y }
    {
        let mut r = [0u8; 12];
        for i in 0..12 {
            r[i] = (x[i] % 4 + y[i] % 4) % self.modulus(i);
        }
        r
    }

    // The negative of an element: three times it, since four times it is zero.
    pub fn neg(self, x: Element) -> Element
        ensures { result ≡ negative (moduli self.a self.b) x }
    {
        self.multiple(3, x)
    }

    // A digit times an element.
    pub fn multiple(self, d: u8, x: Element) -> Element
        ensures { result ≡ times (moduli self.a self.b) d x }
    {
        let mut r = [0u8; 12];
        for i in 0..12 {
            r[i] = ((d % 4) * (x[i] % 4)) % self.modulus(i);
        }
        r
    }

    // The number of an element.
    pub fn number_of(self, x: Element) -> u32
        ensures { result ≡ number (moduli self.a self.b) x }
    {
        let mut n: u32 = 0;
        for i in (0..12).rev() {
            let m = self.modulus(i);
            n = n * u32::from(m) + u32::from(x[i] % m);
        }
        n
    }

    // The modulus of component i: 2, 4, or 1 where the component is not in use.
    fn modulus(self, i: usize) -> u8
        requires { i < 12 }
        ensures { result ≡ radix (get_or (moduli self.a self.b) i one) }
    {
        if i < self.a {
            2
        } else if i - self.a < self.b {
            4
        } else {
            1
        }
    }
}

// Whether every component is 0.
pub fn is_zero(x: Element) -> bool
    ensures { result ≡ all_zero x }
{
    first(x) == 12
}

// The index of the first component that is not 0, or 12: no Option, since `first_of` is a number.
fn first(x: Element) -> usize
    ensures { result ≡ first_of x }
{
    for (i, c) in x.iter().enumerate() {
        if *c != 0 {
            return i;
        }
    }
    12
}
