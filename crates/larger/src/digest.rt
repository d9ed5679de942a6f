// What stands in one line for many answers: a digest of a list of numbers, which is a number that has them, each
// one more, as its digits to the base 48271, modulo 2^31 - 1; its first digit is 1.
use std::fmt;

#[derive(Drop)]
pub(crate) struct Digest(u32);

impl Digest {
    // Of no numbers.
    pub(crate) fn new() -> Self {
        Digest(1)
    }

    // Takes one number more.
    pub(crate) fn add(&mut self, v: u32) {
        self.0 = ((u64::from(self.0) * 48271 + u64::from(v) + 1) % 2147483647) as u32;
    }

    // Takes each byte of w.
    pub(crate) fn add_bytes(&mut self, w: &[u8]) {
        for b in w {
            self.add(u32::from(*b));
        }
    }
}

impl fmt::Display for Digest {
    fn fmt<W: fmt::Write>(&self, f: &mut fmt::Formatter<W>) -> fmt::Result {
        let x = self.0;
        write!(f, "{x}")
    }
}
