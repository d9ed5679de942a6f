// Every opening with one t and r, admitted or not: a line with the number of s from 0 to 4,097 that are
// allowed, and a digest. In it are what each opening gave, its refusal, s and lengths, and what the layout's
// call gave for place 1 with a record that has the same t, r and s but was not opened, its refusal and the
// element.
use crate::digest::Digest;
use coder::Record;
use std::io;

pub(crate) fn with_each_s(rt: &impl Print, t: u32, r: u32) -> io::Result<()> {
    let mut allowed = 0u32;
    let mut digest = Digest::new();
    for s in 0..=4097 {
        let o = coder::open(t, r, s);
        if o.refusal == 0 {
            allowed = allowed.saturating_add(1);
        }
        digest.add(o.refusal);
        digest.add(o.record.s);
        digest.add(coder::word_length(o.record));
        digest.add(coder::message_length(o.record));
        let e = coder::element_at(made(t, r, s), 1);
        digest.add(e.refusal);
        digest.add(e.element);
    }
    println!(rt; "openings {t} {r} {allowed} {digest}")
}

// A record as any caller may make one.
pub(crate) fn made(t: u32, r: u32, s: u32) -> Record {
    Record {
        t,
        r,
        s,
        words: 0,
        clean: 0,
        corrected_binary: 0,
        corrected_pairs: 0,
    }
}
