// Words and outputs, as a line has them: a digit a byte, or a number in angle brackets.
use crate::fields::split_once;
use crate::lines::ROOM;
use crate::numbers::decimal;

// The room for a word or an output.
pub(crate) type Room = [u8; ROOM];

// The rooms for the words and the output of a call.
#[derive(Drop)]
pub(crate) struct Rooms {
    pub(crate) first: Room,
    pub(crate) second: Room,
    pub(crate) out: Room,
}

impl Rooms {
    pub(crate) fn new() -> Self {
        Rooms {
            first: [0; ROOM],
            second: [0; ROOM],
            out: [0; ROOM],
        }
    }
}

// The byte that a text begins with, and the text after it.
fn first_byte(text: &[u8]) -> Option<(u8, &[u8])> {
    let (number, rest) = match text.strip_prefix(b"<") {
        Some(inside) => split_once(inside, b'>')?,
        None => text.split_at_checked(1)?,
    };
    Some((u8::try_from(decimal(number)?).ok()?, rest))
}

// The bytes of a text, put at the start of a room. None is too short: a text is shorter than its line, and a line than
// the room.
pub(crate) fn bytes<'r>(text: &[u8], room: &'r mut Room) -> Option<&'r mut [u8]> {
    let mut rest = text;
    for n in 0..room.len() {
        if rest.is_empty() {
            return Some(&mut room[..n]);
        }
        (room[n], rest) = first_byte(rest)?;
    }
    None
}
