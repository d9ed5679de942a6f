// One round: the calls on words drawn anew, in a code that may be shortened. m is the message, with k places; c its
// codeword and w any word, with n places.
use crate::alter::{flip, front, longer, set};
use crate::draw::Draw;
use crate::lines::Calls;
use coder::Record;
use std::io;

// A round with buffers for the longest words, cut to the lengths of the code.
pub(crate) fn buffered(rt: &impl Print, code: Record, draw: &mut Draw) -> io::Result<()> {
    let mut m = [0u8; 4095];
    let mut w = [0u8; 4095];
    let mut out = [7u8; 4097];
    let n = coder::word_length(code) as usize;
    let k = coder::message_length(code) as usize;
    match (m.get_mut(..k), w.get_mut(..n), out.get_mut(..n + 2)) {
        (Some(m), Some(w), Some(out)) => Calls::new(rt, code).round(draw, m, w, out),
        // No code is longer; that a round is left out then spares a proof of it.
        _ => Ok(()),
    }
}

impl<R: Print> Calls<'_, R> {
    // `out` is the output for the codeword, and holds sevens.
    fn round(&self, draw: &mut Draw, m: &mut [u8], w: &mut [u8], out: &mut [u8]) -> io::Result<()> {
        draw.word(m);
        self.encode_to(m, out)?;
        let c = front(out, w.len());
        self.faults(draw, c)?;
        draw.word(w);
        self.any_word(c, w)?;
        self.bytes(draw, c, w)?;
        self.lengths(draw, c)?;
        self.with_room(draw.below(c.len()) as usize).short(m, c, w)?;
        self.messages(draw, m)?;
        self.places(draw, c)
    }

    // The codeword itself, then with one place flipped, then with another; drawn twice, a place is flipped back.
    fn faults(&self, draw: &mut Draw, c: &[u8]) -> io::Result<()> {
        self.correct(c)?;
        let n = c.len();
        let mut faulty = longer(c);
        for _ in 0..2 {
            flip(&mut faulty, draw.place(n));
            self.correct(front(&faulty, n))?;
        }
        Ok(())
    }

    // A codeword and any word.
    fn any_word(&self, c: &[u8], w: &[u8]) -> io::Result<()> {
        self.syndrome(w)?;
        self.correct(w)?;
        self.combine(c, w)?;
        self.combine(w, w)?;
        self.inverse(w)?;
        self.read(c)?;
        self.read(w)
    }

    // One byte above 1, then a second one.
    fn bytes(&self, draw: &mut Draw, c: &[u8], w: &[u8]) -> io::Result<()> {
        let n = c.len();
        let mut bad = longer(w);
        let place = draw.place(n);
        set(&mut bad, place, (2 + draw.below(254)) as u8);
        self.one_byte(c, front(&bad, n))?;
        set(&mut bad, draw.place(n), 2);
        self.correct(front(&bad, n))?;
        self.syndrome(front(&bad, n))
    }

    fn one_byte(&self, c: &[u8], b: &[u8]) -> io::Result<()> {
        self.correct(b)?;
        self.combine(c, b)?;
        self.combine(b, c)?;
        self.syndrome(b)
    }

    // A word too short and one too long.
    fn lengths(&self, draw: &mut Draw, c: &[u8]) -> io::Result<()> {
        let n = c.len();
        self.correct(front(c, draw.below(n) as usize))?;
        self.correct(front(&longer(c), n + 1 + draw.below(3) as usize))
    }

    // Outputs too short.
    fn short(&self, m: &[u8], c: &[u8], w: &[u8]) -> io::Result<()> {
        self.correct(c)?;
        self.encode(m)?;
        self.combine(c, w)
    }

    // A message without its last place, and one with a byte above 1.
    fn messages(&self, draw: &mut Draw, m: &[u8]) -> io::Result<()> {
        let k = m.len();
        self.encode(front(m, k.saturating_sub(1)))?;
        let mut bad = longer(m);
        set(&mut bad, draw.place(k), 9);
        self.encode(front(&bad, k))
    }

    // Third places and an element; 0 and n + 1 are drawn too, which are no places.
    fn places(&self, draw: &mut Draw, c: &[u8]) -> io::Result<()> {
        let end = c.len() + 2;
        let mut i = 0;
        for _ in 0..3 {
            i = draw.below(end);
            self.third(i, draw.below(end))?;
        }
        self.third(i, i)?;
        self.element(draw.below(end))
    }
}
