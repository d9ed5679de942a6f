// Making and altering words. Places count from 1. A place that a word has not is left alone, so that
// no caller has to show that it is there.

// Room for the longest word that is tried, three places longer than any code's.
pub(crate) type Long = [u8; 4098];

// The first n bytes; all of them where there are no more.
pub(crate) fn front(w: &[u8], n: usize) -> &[u8] {
    w.get(..n).unwrap_or(w)
}

// A word and zeros after it.
pub(crate) fn longer(word: &[u8]) -> Long {
    let mut b = [0u8; 4098];
    for (to, from) in b.iter_mut().zip(word) {
        *to = *from;
    }
    b
}

// The byte at a place.
fn at(word: &mut [u8], place: usize) -> Option<&mut u8> {
    word.get_mut(place.checked_sub(1)?)
}

pub(crate) fn set(word: &mut [u8], place: usize, v: u8) {
    if let Some(b) = at(word, place) {
        *b = v;
    }
}

// The other bit at a place.
pub(crate) fn flip(word: &mut [u8], place: usize) {
    if let Some(b) = at(word, place) {
        *b = 1 - *b % 2;
    }
}
