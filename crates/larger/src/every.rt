// Every word of the codes of at most twelve places that (2,1), (3,2), (4,2), (4,3) and (4,4) are shortened to,
// each corrected with the record that the word before it left, into an output of sevens. A line for each code:
// t, r, s, the places of a word, the record's counts, how many words were refused with 11, and a digest of the
// refusals, the places told and every byte of the outputs.
ghost use Rattle.std.specs.Prelude.{◌≤◌};

use crate::alter::front;
use crate::digest::Digest;
use crate::lines::Counts;
use coder::Record;
use std::io;

pub(crate) fn words(rt: &impl Print) -> io::Result<()> {
    for (t, r) in [(2, 1), (3, 2), (4, 2), (4, 3), (4, 4)] {
        with_each_s(rt, t, r)?;
    }
    Ok(())
}

// A refused opening gives the closed record, which has no places.
fn with_each_s(rt: &impl Print, t: u32, r: u32) -> io::Result<()> {
    for s in 0..16 {
        let code = coder::open(t, r, s).record;
        let n = coder::word_length(code);
        if 0 < n && n <= 12 {
            line(rt, code, n)?;
        }
    }
    Ok(())
}

fn line(rt: &impl Print, code: Record, n: u32) -> io::Result<()>
    requires { n ≤ 12 }
{
    let mut seen = Seen {
        record: code,
        refused: 0,
        digest: Digest::new(),
    };
    for b in 0..1 << n {
        seen.correct(front(&bits(b), n as usize));
    }
    print!(rt; "every {} {} {} {n}", code.t, code.r, code.s)?;
    let refused = seen.refused;
    println!(rt;
        "{} refused {refused} digest {}",
        Counts(seen.record),
        seen.digest
    )
}

// What came of the words so far.
#[derive(Drop)]
struct Seen {
    record: Record,
    refused: u32,
    digest: Digest,
}

impl Seen {
    // One word more.
    fn correct(&mut self, word: &[u8]) {
        let mut out = [7u8; 16];
        let a = coder::correct(self.record, word, &mut out);
        self.record = a.record;
        if a.refusal == 11 {
            self.refused = self.refused.saturating_add(1);
        }
        self.digest.add(a.refusal);
        self.digest.add(a.place);
        self.digest.add_bytes(&out);
    }
}

// The bits of a number, the lowest first: with the number counted on, place 1 changes fastest.
fn bits(b: u32) -> [u8; 12] {
    let mut w = [0u8; 12];
    let mut rest = b;
    for bit in w.iter_mut() {
        *bit = (rest % 2) as u8;
        rest /= 2;
    }
    w
}
