// Writing a text into a buffer, byte after byte. The bounds on where a text ends are there so that the
// position cannot wrap.
ghost use Rattle.std.specs.Prelude.{◌≡◌, ◌+◌, ◌^◌, ◌<◌, ◌∷◌, [], length};
ghost use Rattle.listing_theory.specs.Decimal.{decimal};
ghost use Rattle.listing_theory.specs.Sheet.{field_text, refused_line, heading_text, place_line, place_lines, listing_text, answer_text};
ghost use Rattle.listing.specs.Appends.{Appends};

// A text in a buffer. A byte past the buffer's end is counted and not written.
#[derive(Drop)]
pub(crate) struct Text<'a> {
    out: &'a mut [u8],
    // where the text ends, beyond the buffer too, since the length of the whole is told
    at: usize,
}

impl<'a> Text<'a> {
    // The empty text.
    pub(crate) fn new(out: &'a mut [u8]) -> Text<'a>
        ensures same { result.out.ghost_name ≡ out.entry.ghost_name }
        ensures bytes { result.out.now ≡ out.old }
        ensures at { result.at ≡ 0 }
    {
        Text { out, at: 0 }
    }

    pub(crate) fn len(&self) -> usize
        ensures { result ≡ self.now.at }
    {
        self.at
    }

    // One byte.
    fn byte(&mut self, b: u8)
        requires { self.old.at < 2 ^ 48 }
        ensures { Appends self.old (b ∷ []) self.new }
    {
        if self.at < self.out.len() {
            self.out[self.at] = b;
        }
        self.at += 1;
    }

    // A number's digits: all but the last one, and then the last. They are written by hand, since `write!`
    // promises its text only where it answers `Ok`, and nothing here may fail.
    fn number(&mut self, x: u32)
        requires { self.old.at < 2 ^ 47 }
        ensures { Appends self.old (decimal x) self.new }
    {
        if x >= 10 {
            self.number(x / 10);
        }
        self.byte(b'0' + (x % 10) as u8);
    }

    // A number and the byte after it.
    fn field(&mut self, x: u32, end: u8)
        requires { self.old.at < 2 ^ 46 }
        ensures { Appends self.old (field_text x end) self.new }
    {
        self.number(x);
        self.byte(end);
    }

    // A word as it stands.
    fn word(&mut self, word: &[u8])
        requires { self.old.at + length word.now < 2 ^ 46 }
        ensures { Appends self.old word.now self.new }
    {
        for b in word {
            self.byte(*b);
        }
    }

    // The line of a refusal, which is the whole text.
    pub(crate) fn refusal(&mut self, number: u32)
        requires { self.old.at ≡ 0 }
        ensures { Appends self.old (refused_line number) self.new }
    {
        self.word(b"refused ");
        self.field(number, b'\n');
    }

    // The first line of a listing.
    fn heading(&mut self, code: coder::Record)
        requires { self.old.at ≡ 0 }
        ensures { Appends self.old (heading_text code) self.new }
    {
        self.word(b"code ");
        self.field(code.t, b' ');
        self.field(code.r, b' ');
        self.field(coder::word_length(code), b' ');
        self.field(coder::message_length(code), b'\n');
    }

    // The line of one place.
    fn place(&mut self, code: coder::Record, p: u32)
        requires { self.old.at < 2 ^ 45 }
        ensures { Appends self.old (place_line code p) self.new }
    {
        self.field(p, b' ');
        self.field(coder::element_at(code, p).element, b'\n');
    }

    // The lines of the places 1 to n.
    fn places(&mut self, code: coder::Record, n: u32)
        requires at { self.old.at < 2 ^ 40 }
        requires count { n < 2 ^ 24 }
        ensures { Appends self.old (place_lines code 1 n) self.new }
    {
        for p in 1..=n {
            self.place(code, p);
        }
    }

    // The whole listing of a code that was opened.
    fn listing(&mut self, code: coder::Record)
        requires { self.old.at ≡ 0 }
        ensures { Appends self.old (listing_text code) self.new }
    {
        self.heading(code);
        self.places(code, coder::word_length(code));
    }

    // What is printed for a code that was asked for: its listing, or why it was refused.
    pub(crate) fn answer(&mut self, o: coder::Opened)
        requires { self.old.at ≡ 0 }
        ensures { Appends self.old (answer_text o) self.new }
    {
        let refusal = o.refusal;
        if refusal == 0 {
            self.listing(o.record);
        } else {
            self.refusal(refusal);
        }
    }
}
