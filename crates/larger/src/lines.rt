// A line for each call: its name, its answer, and what became of its output. The output holds sevens
// before the call, and no call writes a seven, so that a byte that was written shows. Where s is 0, the calls for C
// are made, of those that there are for C; the calls for C have no s, and in a shortened code the coder's are made.
use crate::alter::front;
use coder::{Answer, Corrected, Opened, Record};
use std::{fmt, io};

// The counts of a record.
#[derive(Drop)]
pub(crate) struct Counts(pub(crate) Record);

impl fmt::Display for Counts {
    fn fmt<W: fmt::Write>(&self, f: &mut fmt::Formatter<W>) -> fmt::Result {
        let Record {
            words,
            clean,
            corrected_binary,
            corrected_pairs,
            ..
        } = self.0;
        write!(
            f,
            " counts {words} {clean} {corrected_binary} {corrected_pairs}"
        )
    }
}

// An answer as C has it, and after it the place in a refusal, which C is not told: the two numbers of `Answer`.
#[derive(Drop)]
struct Told {
    refusal: u32,
    place: u32,
}

impl fmt::Display for Told {
    fn fmt<W: fmt::Write>(&self, f: &mut fmt::Formatter<W>) -> fmt::Result {
        match *self {
            Told { refusal: 0, place } => write!(f, " {place}"),
            Told { refusal, place: 0 } => write!(f, " -{refusal}"),
            Told { refusal, place } => write!(f, " -{refusal} at {place}"),
        }
    }
}

// A word in hexadecimal.
#[derive(Drop)]
struct Hex<'a>(&'a [u8]);

impl fmt::Display for Hex<'_> {
    fn fmt<W: fmt::Write>(&self, f: &mut fmt::Formatter<W>) -> fmt::Result {
        for places in self.0.chunks(4) {
            let digit = hex_digit(places);
            write!(f, "{digit}")?;
        }
        Ok(())
    }
}

// The digit of four places, the earlier place the higher bit; places past the end are 0.
fn hex_digit(places: &[u8]) -> char {
    (0..4)
        .try_fold(0u32, |v, i| match places.get(i) {
            None | Some(0) => Some(v << 1),
            Some(1) => Some(v << 1 | 1),
            Some(_) => None,
        })
        .and_then(|v| char::from_digit(v, 16))
        .unwrap_or('?')
}

// An answer of a C call, taken apart.
fn taken(a: i32) -> Answer {
    match u32::try_from(a) {
        Ok(place) => Answer { refusal: 0, place },
        Err(_) => Answer {
            refusal: a.unsigned_abs(),
            place: 0,
        },
    }
}

// The answer of a call that leaves the record as it is.
fn same(code: Record, a: Answer) -> Corrected {
    Corrected {
        refusal: a.refusal,
        place: a.place,
        record: code,
    }
}

// The calls in one code, each of which prints its line; an output has `room` bytes.
#[derive(Drop)]
pub(crate) struct Calls<'a, R> {
    rt: &'a R,
    code: Record,
    room: usize,
}

impl<'a, R: Print> Calls<'a, R> {
    // An output has two bytes more than a word, to show that they are kept.
    pub(crate) fn new(rt: &'a R, code: Record) -> Self {
        let room = coder::word_length(code) as usize + 2;
        Calls { rt, code, room }
    }

    // The same with outputs of so many bytes.
    pub(crate) fn with_room(&self, room: usize) -> Self {
        Calls {
            rt: self.rt,
            code: self.code,
            room,
        }
    }

    // A call with an output of its own, that is not looked at again. No room is longer; that the call is left out
    // then spares a proof of it.
    fn write<F: FnOnce(Record, &mut [u8]) -> Corrected>(
        &self,
        name: &str,
        call: F,
    ) -> io::Result<()>
        requires { F.IsAlwaysCallable call }
    {
        let mut out = [7u8; 4097];
        match out.get_mut(..self.room) {
            Some(out) => self.write_to(name, out, call),
            None => Ok(()),
        }
    }

    // The answer and the output of a call, and the counts where it counted: no code's record has any before.
    fn write_to<F: FnOnce(Record, &mut [u8]) -> Corrected>(
        &self,
        name: &str,
        out: &mut [u8],
        call: F,
    ) -> io::Result<()>
        requires { F.IsAlwaysCallable call }
    {
        let Corrected {
            refusal,
            place,
            record,
        } = call(self.code, out);
        print!(self.rt; "{name}{}", Told { refusal, place })?;
        self.outcome(refusal, out)?;
        if record.words != 0 {
            print!(self.rt; "{}", Counts(record))?;
        }
        println!(self.rt)
    }

    // What an accepted call must have written: n places, and nothing after them. What a refused call must have
    // written: nothing.
    fn outcome(&self, refusal: u32, out: &[u8]) -> io::Result<()> {
        if refusal != 0 {
            let kept = if out.iter().all(|b| *b == 7) {
                "untouched"
            } else {
                "altered"
            };
            return print!(self.rt; " {kept}");
        }
        let n = coder::word_length(self.code) as usize;
        print!(self.rt; " {}", Hex(front(out, n)))?;
        if !out.iter().skip(n).all(|b| *b == 7) {
            print!(self.rt; " altered")?;
        }
        Ok(())
    }

    // With an output that the caller keeps.
    pub(crate) fn encode_to(&self, message: &[u8], out: &mut [u8]) -> io::Result<()> {
        self.write_to("encode", out, |code, out| encoded(code, message, out))
    }

    pub(crate) fn encode(&self, message: &[u8]) -> io::Result<()> {
        self.write("encode", |code, out| encoded(code, message, out))
    }

    pub(crate) fn correct(&self, word: &[u8]) -> io::Result<()> {
        self.write("correct", |code, out| match code.s {
            0 => same(code, taken(z2z4::z2z4_correct(code.t, code.r, word, out))),
            _ => coder::correct(code, word, out),
        })
    }

    pub(crate) fn combine(&self, first: &[u8], second: &[u8]) -> io::Result<()> {
        self.write("combine", |code, out| match code.s {
            0 => same(
                code,
                taken(z2z4::z2z4_combine(code.t, code.r, first, second, out)),
            ),
            _ => same(code, coder::combine(code, first, second, out)),
        })
    }

    pub(crate) fn inverse(&self, word: &[u8]) -> io::Result<()> {
        self.write(
            "inverse",
            |code, out| same(code, coder::invert(code, word, out)),
        )
    }

    // The message that is read, its length before it.
    pub(crate) fn read(&self, word: &[u8]) -> io::Result<()> {
        let m = coder::read_message(self.code, word);
        print!(self.rt; "read {}", m.len())?;
        if !m.is_empty() {
            print!(self.rt; " {}", Hex(m))?;
        }
        println!(self.rt)
    }

    pub(crate) fn third(&self, i: u32, j: u32) -> io::Result<()> {
        let code = self.code;
        let Answer { refusal, place } = match code.s {
            0 => taken(z2z4::z2z4_third_place(code.t, code.r, i, j)),
            _ => coder::third_place(code, i, j),
        };
        println!(self.rt; "third{}", Told { refusal, place })
    }

    pub(crate) fn syndrome(&self, word: &[u8]) -> io::Result<()> {
        let a = coder::syndrome(self.code, word);
        println!(self.rt; "syndrome {} {} {}", a.refusal, a.place, a.element)
    }

    pub(crate) fn element(&self, place: u32) -> io::Result<()> {
        let a = coder::element_at(self.code, place);
        println!(self.rt; "element {} {}", a.refusal, a.element)
    }
}

fn encoded(code: Record, message: &[u8], out: &mut [u8]) -> Corrected {
    let a = match code.s {
        0 => taken(z2z4::z2z4_encode(code.t, code.r, message, out)),
        _ => coder::encode(code, message, out),
    };
    same(code, a)
}

// What an opening gave: t, the r in force, s and the lengths, or the refusal.
pub(crate) fn opening(rt: &impl Print, t: u32, r: u32, s: u32, o: Opened) -> io::Result<()> {
    print!(rt; "open {t} {r} {s}")?;
    if o.refusal != 0 {
        return println!(rt; " refused {}", o.refusal);
    }
    let code = o.record;
    let n = coder::word_length(code);
    let m = coder::message_length(code);
    println!(rt; " code {} {} {} {n} {m}", code.t, code.r, code.s)
}
