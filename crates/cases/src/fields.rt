// The fields of a line, one space between them, read one after the other. A reading gives nothing where no field is left,
// or one of another form.
use crate::numbers::{decimal, listed};
use crate::words::{Room, bytes};
use coder::Record;

// What comes before the first such byte, and what after it.
pub(crate) fn split_once(s: &[u8], byte: u8) -> Option<(&[u8], &[u8])> {
    let at = s.iter().position(|b| *b == byte)?;
    Some((&s[..at], &s[at + 1..]))
}

// `rest` is what has not been read, and `last` the record that `(last)` stands for.
#[derive(Drop)]
pub(crate) struct Fields<'a> {
    rest: Option<&'a [u8]>,
    last: Record,
}

impl<'a> Fields<'a> {
    pub(crate) fn new(line: &'a [u8], last: Record) -> Self {
        Fields {
            rest: Some(line),
            last,
        }
    }

    pub(crate) fn field(&mut self) -> Option<&'a [u8]> {
        let line = self.rest?;
        let Some((field, rest)) = split_once(line, b' ') else {
            self.rest = None;
            return Some(line);
        };
        self.rest = Some(rest);
        Some(field)
    }

    pub(crate) fn number(&mut self) -> Option<u32> {
        decimal(self.field()?)
    }

    pub(crate) fn record(&mut self) -> Option<Record> {
        match self.field()?.strip_prefix(b"(")?.strip_suffix(b")")? {
            b"last" => Some(self.last),
            numbers => listed(numbers),
        }
    }

    // The word, put in a room.
    pub(crate) fn word<'r>(&mut self, room: &'r mut Room) -> Option<&'r [u8]> {
        let text = self.field()?.strip_prefix(b"[")?.strip_suffix(b"]")?;
        Some(bytes(text, room)?)
    }

    // What an output holds before the call, put in a room.
    pub(crate) fn output<'r>(&mut self, room: &'r mut Room) -> Option<&'r mut [u8]> {
        bytes(self.field()?.strip_prefix(b"{")?.strip_suffix(b"}")?, room)
    }

    // Whether nothing is left.
    pub(crate) fn is_read(&self) -> bool {
        self.rest.is_none()
    }
}
