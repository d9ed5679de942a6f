// Bytes above 1: whether there are some in a stretch of bytes, and the lowest place of one. The highest byte
// is found many bytes at a time.
ghost use Rattle.std.specs.Prelude.{◌≡◌, ◌<◌, ◌≤◌, length, slice_index, MatchOption};
ghost use Rattle.words_theory.specs.Calls.{bad_from};
ghost use Rattle.loops_theory.specs.Passing.{BitsIn, BadIn, Highest, Says, head_of};

// As many bytes as are looked at together where the lowest place is searched.
const BLOCK: usize = 16;

// The lowest place of a byte above 1, where the bytes before an index are 0 or 1: block by block, and in a block that
// has one byte by byte. Each caller knows that there is one, and needs no Option; 0 for none is what bad_from says.
// The index stays beside the word, since places are told by the whole word's.
pub(crate) fn first_bad(word: &[u8], begin: usize) -> usize
    requires { (begin ≤ length word.now) × BitsIn word.now 0 begin }
    ensures { result ≡ bad_from 1 word.now }
{
    // Not `chunks_exact(BLOCK).position(..)`: that all bytes before the block it finds are 0 or 1 takes an induction over
    // the run of the iterator, where this loop has an invariant of one line.
    let mut start = begin;
    while BLOCK <= word.len() - start && bits(&word[start..start + BLOCK]) {
        start += BLOCK;
    }
    match first_above(&word[start..]) {
        Some(i) => start + i + 1,
        None => 0,
    }
}

// The index of the first byte above 1.
fn first_above(bytes: &[u8]) -> Option<usize>
    ensures { MatchOption result (BitsIn bytes.now 0 (length bytes.now)) (λ i. (i < length bytes.now) × (1 < slice_index bytes.now i) × BitsIn bytes.now 0 i) }
{
    bytes.iter().position(|b| 1 < *b)
}

// As many bytes as a word has in its front, if they are 0 or 1: all of a short word. The array that the pass lays
// out costs more than the whole test of a word whose bad byte is near its front. The lengths are written out, so
// that the loops over 192 and 512 bytes are compiled for them.
pub(crate) fn front(word: &[u8]) -> Option<usize>
    ensures { MatchOption result (BadIn word.now 0 (length word.now)) (λ k. (k ≡ head_of (length word.now)) × (k ≤ length word.now) × BitsIn word.now 0 k) }
{
    let n = word.len();
    if n < 192 {
        return bits(word).then_some(n);
    }
    if n < 1024 {
        return bits(&word[..192]).then_some(192);
    }
    bits(&word[..512]).then_some(512)
}

// Whether all of these bytes are 0 or 1.
pub(crate) fn bits(bytes: &[u8]) -> bool
    ensures { Says result bytes.now 0 (length bytes.now) }
{
    highest(bytes) <= 1
}

// The highest of these bytes, or 0 where there is none; a `for`, since `max` would tell an Option.
fn highest(bytes: &[u8]) -> u8
    ensures { Highest bytes.now 0 (length bytes.now) result }
{
    let mut most: u8 = 0;
    for b in bytes {
        most = most.max(*b);
    }
    most
}
