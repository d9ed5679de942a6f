// The generator of the words and places that are tried: x <- 48271 x mod (2^31 - 1), by Lehmer. A draw is a step and
// then a number made of the new state.
ghost use Rattle.std.specs.Prelude.{◌-◌, ◌≤◌};

#[derive(Drop)]
pub(crate) struct Draw {
    state: u32,
}

impl Draw {
    pub(crate) fn new(state: u32) -> Self {
        Draw { state }
    }

    fn step(&mut self) -> u32 {
        self.state = (u64::from(self.state) * 48271 % 2147483647) as u32;
        self.state
    }

    // A number below m; 0 for m = 0.
    pub(crate) fn below(&mut self, m: usize) -> u32
        ensures { result ≤ m - 1 }
    {
        let x = self.step();
        if m == 0 { 0 } else { (x as usize % m) as u32 }
    }

    // A place of a word of n places.
    pub(crate) fn place(&mut self, n: usize) -> usize {
        1 + self.below(n) as usize
    }

    // A random word over all of w, a draw for each place.
    pub(crate) fn word(&mut self, w: &mut [u8]) {
        for b in w {
            *b = (self.step() % 2) as u8;
        }
    }
}
