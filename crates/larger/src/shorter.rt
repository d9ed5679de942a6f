// Some shortened codes of one code: the ends of what is allowed, s that are not, and drawn ones, each with a
// round where it opens.
use crate::draw::Draw;
use crate::lines::opening;
use crate::round::buffered;
use coder::Record;
use std::io;

// So many s, of which the first nine are fixed and the others drawn; there is a draw for each. `code` has s = 0.
pub(crate) fn rounds(rt: &impl Print, code: Record, count: u32, draw: &mut Draw) -> io::Result<()> {
    let m = coder::message_length(code);
    for i in 0..count {
        let drawn = 1 + draw.below(m as usize);
        let s = chosen(i, part_1(code.t, code.r), m, drawn);
        let o = coder::open(code.t, code.r, s);
        opening(rt, code.t, code.r, s, o)?;
        if o.refusal == 0 {
            buffered(rt, o.record, draw)?;
        }
    }
    Ok(())
}

// Part 1 has `part` places and a message of the whole code m, of which one has to stay. In between there are
// pairs, unless r = t or t = 2, where part is m. With t = 2 the difference m - 2 wraps, which gives one more s that
// is not allowed. A table of numbers, nine fixed ones and then drawn ones.
fn chosen(i: u32, part: u32, m: u32, drawn: u32) -> u32 {
    match i {
        0 => 1,
        1 => part,
        2 => part.wrapping_add(1),
        3 => part.wrapping_add(2),
        4 => m.wrapping_sub(2),
        5 => m.wrapping_sub(1),
        6 => m,
        7 => m.wrapping_add(1),
        8 => u32::MAX,
        _ => drawn,
    }
}

// k - a, which is 2^r - 1 - (2r - t). For the t and r that are admitted nothing wraps, which is not proved here.
fn part_1(t: u32, r: u32) -> u32 {
    2u32.wrapping_pow(r)
        .wrapping_add(t)
        .wrapping_sub(r.wrapping_mul(2))
        .wrapping_sub(1)
}
