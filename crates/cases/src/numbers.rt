// Numbers and records, as a line has them.
use coder::Record;

// A number in decimal digits, leading zeros among them.
pub(crate) fn decimal(s: &[u8]) -> Option<u32> {
    if s.is_empty() {
        return None;
    }
    s.iter().try_fold(0u32, |v, b| {
        v.checked_mul(10)?.checked_add(char::from(*b).to_digit(10)?)
    })
}

// The numbers of a record, commas between them; those left off at the end are 0.
pub(crate) fn listed(s: &[u8]) -> Option<Record> {
    let mut numbers = s.split(|b| *b == b',');
    let mut number = || numbers.next().map_or(Some(0), decimal);
    let record = Record {
        t: number()?,
        r: number()?,
        s: number()?,
        words: number()?,
        clean: number()?,
        corrected_binary: number()?,
        corrected_pairs: number()?,
    };
    if numbers.next().is_some() {
        return None;
    }
    Some(record)
}
