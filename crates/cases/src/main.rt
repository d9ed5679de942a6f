// Answers calls of the coder that standard input lists, one a line: prints each line and, after a colon, its
// answer. README says how a line is written. The file `stdin` beside src/ has document 01's executed cases and
// those of the requests; `stdout`, what has to be printed for it, is written by a second program.
#![tactic(auto)]

mod calls;
mod fields;
mod lines;
mod numbers;
mod print;
mod words;

use crate::lines::{ROOM, answered, next};
use std::io;

fn main(rt: HostRuntime) -> io::Result<()> {
    let mut input = rt.stdin();
    // The record that the last call returned. No call did yet, and the closed record, which a refused opening
    // gives, stands for it.
    let mut last = coder::open(0, 0, 0).record;
    // Nothing says that the input ends: the count of lines has to.
    for number in 1..u32::MAX {
        let mut room = [0u8; ROOM];
        let Some(line) = next(&mut input, &mut room) else {
            return Ok(());
        };
        match answered(&rt, line, last)? {
            Some(record) => last = record,
            None => return println!(rt; " line {number} is malformed"),
        }
        println!(rt)?;
    }
    Ok(())
}
