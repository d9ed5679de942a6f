// The parameters: whether t and r are admitted, r = t for an r given as 0, whether s is allowed with t
// and r, the numbers of their code, whether so many bytes are a word or a message or have room for one,
// and whether a number is a place. What these answer is defined in crate layout_theory,
// specs/Parameters.antt and Calls.antt, and in crate shortened_theory, specs/Calls.antt.
#![tactic(auto)]

ghost use Rattle.std.specs.Prelude.{◌≡◌, ◌&&◌, leb, ltb, ◌-◌};
ghost use Rattle.layout_theory.specs.Parameters.{admits, places_of};
ghost use Rattle.layout_theory.specs.Calls.{or_hamming, shape_for};
ghost use Rattle.shortened_theory.specs.Allowed.{ends_whole};
ghost use Rattle.shortened_theory.specs.Calls.{allowed_for, fits_word, fits_message};

pub use layout_theory::Shape;

// The largest t in use.
const LONGEST: u32 = 12;

// Whether t and r are admitted: asked before there is a code, so of two numbers.
#[tactic(auto, unfolding(layout_theory::specs::Parameters::admits))]
pub fn admitted(t: u32, r: u32) -> bool
    ensures { result ≡ admits t r }
{
    2 <= t && t <= LONGEST && 1 <= r && r <= t && t - r <= r
}

// r, or t where r is given as 0: the Hamming code. The sheet and the calls for C ask for it before they
// open a record, since opening has another default.
pub fn or_hamming(t: u32, r: u32) -> u32
    ensures { result ≡ or_hamming t r }
{
    if r == 0 { t } else { r }
}

// Which code: t, r, and how many places are left out of it. Any three numbers may stand here; what is answered
// for those that are not admitted or not allowed is said at each call.
#[derive(Clone, Copy)]
pub struct Code {
    pub t: u32,
    pub r: u32,
    pub s: u32,
}

impl Code {
    // The shape of the whole code, which has all its places; zeros where t and r are not admitted.
    pub fn shape(self) -> Shape
        ensures { result ≡ shape_for self.t self.r }
    {
        let t = self.t;
        let r = self.r;
        if admitted(t, r) {
            let n = (1u32 << t) - 1;
            return Shape {
                a: (2 * r - t) as usize,
                b: (t - r) as usize,
                places: n,
                binary: (1u32 << r) - 1,
                message: n - t,
            };
        }
        Shape {
            a: 0,
            b: 0,
            places: 0,
            binary: 0,
            message: 0,
        }
    }

    // Whether t and r are admitted and s is allowed with them.
    pub fn allowed(self) -> bool
        ensures { result ≡ allowed_for self.t self.r self.s }
    {
        if admitted(self.t, self.r) {
            let h = self.shape();
            let a = h.a as u32;
            let part = h.binary - a;
            return ends(part, h.message, self.s);
        }
        false
    }

    // Whether so many bytes are those of a word of the shortened code.
    pub fn fits_word(self, count: usize) -> bool
        ensures { result ≡ fits_word self.t self.r self.s count }
    {
        self.allowed() && count == (self.shape().places - self.s) as usize
    }

    // Whether so many bytes are those of a message of the shortened code.
    pub fn fits_message(self, count: usize) -> bool
        ensures { result ≡ fits_message self.t self.r self.s count }
    {
        self.allowed() && count == (self.shape().message - self.s) as usize
    }

    // Whether s is allowed and an output has room for a word.
    pub fn has_room(self, room: usize) -> bool
        ensures { result ≡ (allowed_for self.t self.r self.s && leb (places_of self.t - self.s) room) }
    {
        self.allowed() && (self.shape().places - self.s) as usize <= room
    }
}

// The shape of the code with t and r.
pub fn shape_of(t: u32, r: u32) -> Shape
    ensures { result ≡ shape_for t r }
{
    Code { t, r, s: 0 }.shape()
}

// Whether s ends inside part 1, at its end or after a whole pair, and a message place stays.
fn ends(part: u32, message: u32, s: u32) -> bool
    ensures { result ≡ (ends_whole part s && ltb s message) }
{
    (s <= part || (s - part) % 2 == 0) && s < message
}

// Whether p is one of n places.
pub fn is_place(n: u32, p: u32) -> bool
    ensures { result ≡ (leb 1 p && leb p n) }
{
    (1..=n).contains(&p)
}
