// The calls, each with its arguments: how a line names it, and what prints its answer. A new call adds a line to all
// three tables.
use crate::fields::Fields;
use crate::print::{corrected, element, number, opened, shown, tested, told, wrote};
use crate::words::Rooms;
use coder::Record;
use std::io;

// To commit, the output is the word itself.
#[derive(Drop)]
pub(crate) enum Call<'a> {
    Open(u32, u32, u32),
    ElementAt(Record, u32),
    WordLength(Record),
    MessageLength(Record),
    ThirdPlace(Record, u32, u32),
    Syndrome(Record, &'a [u8]),
    IsCodeword(Record, &'a [u8]),
    ReadMessage(Record, &'a [u8]),
    Ask(Record, &'a [u8]),
    Encode(Record, &'a [u8], &'a mut [u8]),
    Correct(Record, &'a [u8], &'a mut [u8]),
    Combine(Record, &'a [u8], &'a [u8], &'a mut [u8]),
    Invert(Record, &'a [u8], &'a mut [u8]),
    Commit(Record, u32, &'a mut [u8]),
}

impl<'a> Call<'a> {
    // The call that a line names, its words and output put in rooms; nothing where the line is malformed.
    pub(crate) fn read(line: &[u8], last: Record, rooms: &'a mut Rooms) -> Option<Self> {
        let mut f = Fields::new(line, last);
        let call = match f.field()? {
            b"open" => Call::Open(f.number()?, f.number()?, f.number()?),
            b"element_at" => Call::ElementAt(f.record()?, f.number()?),
            b"word_length" => Call::WordLength(f.record()?),
            b"message_length" => Call::MessageLength(f.record()?),
            b"third_place" => Call::ThirdPlace(f.record()?, f.number()?, f.number()?),
            b"commit" => Call::Commit(f.record()?, f.number()?, f.output(&mut rooms.out)?),
            name => Call::on_word(name, &mut f, rooms)?,
        };
        f.is_read().then_some(call)
    }

    // Of the calls that read a word, which all have it after a record.
    fn on_word(name: &[u8], f: &mut Fields<'_>, rooms: &'a mut Rooms) -> Option<Self> {
        let record = f.record()?;
        let word = f.word(&mut rooms.first)?;
        Some(match name {
            b"syndrome" => Call::Syndrome(record, word),
            b"is_codeword" => Call::IsCodeword(record, word),
            b"read_message" => Call::ReadMessage(record, word),
            b"ask" => Call::Ask(record, word),
            b"encode" => Call::Encode(record, word, f.output(&mut rooms.out)?),
            b"correct" => Call::Correct(record, word, f.output(&mut rooms.out)?),
            b"invert" => Call::Invert(record, word, f.output(&mut rooms.out)?),
            b"combine" => {
                let second = f.word(&mut rooms.second)?;
                Call::Combine(record, word, second, f.output(&mut rooms.out)?)
            }
            _ => return None,
        })
    }

    // Makes the call and prints its answer; tells the record that it returned, if it returned one.
    pub(crate) fn answer(self, rt: &impl Print) -> io::Result<Option<Record>> {
        match self {
            Call::Open(t, r, s) => return opened(rt, coder::open(t, r, s)),
            Call::Correct(record, word, out) => {
                return corrected(rt, coder::correct(record, word, out), out);
            }
            Call::Commit(record, place, word) => {
                return corrected(rt, coder::commit(record, place, word), word);
            }
            Call::ElementAt(record, place) => element(rt, coder::element_at(record, place))?,
            Call::WordLength(record) => number(rt, coder::word_length(record))?,
            Call::MessageLength(record) => number(rt, coder::message_length(record))?,
            Call::ThirdPlace(record, i, j) => told(rt, coder::third_place(record, i, j))?,
            Call::Syndrome(record, word) => element(rt, coder::syndrome(record, word))?,
            Call::IsCodeword(record, word) => tested(rt, coder::is_codeword(record, word))?,
            Call::ReadMessage(record, word) => shown(rt, coder::read_message(record, word))?,
            Call::Ask(record, word) => told(rt, coder::ask(record, word))?,
            Call::Encode(record, message, out) => {
                wrote(rt, coder::encode(record, message, out), out)?;
            }
            Call::Combine(record, first, second, out) => {
                wrote(rt, coder::combine(record, first, second, out), out)?;
            }
            Call::Invert(record, word, out) => wrote(rt, coder::invert(record, word, out), out)?,
        }
        Ok(None)
    }
}
