// Prints the sheet of the code that a line of standard input names.
#![tactic(auto)]

ghost use Rattle.std.specs.Prelude.{◌≤◌, length};

use std::io::{self, Read};

// No sheet is longer than its buffer: `in_buffer`, by `fits` in crate listing_theory, specs/Claims.antt.
#[tactic(auto, using(listing_theory::proofs::Sheets::in_buffer))]
fn main(rt: HostRuntime) -> io::Result<()> {
    // The longest line of the form has ten bytes: one more shows that something follows it.
    let mut line = [0u8; 11];
    let mut text = [0u8; 65536];
    let n = listing::sheet(read_full(&mut rt.stdin(), &mut line), &mut text);
    let (sheet, _) = text.split_at(n);
    rt.write_all(sheet)
}

// Reads until the buffer is full, the input ends or a read fails, and gives the bytes that came. No `for`: a step is what
// a read gave.
fn read_full<'a>(input: &mut impl Read, buffer: &'a mut [u8]) -> &'a [u8]
    ensures { length result.now ≤ length buffer.old }
{
    let mut done = 0;
    while done < buffer.len() {
        match input.read(&mut buffer[done..]) {
            Ok(n) if n > 0 => done += n,
            _ => break,
        }
    }
    &buffer[..done]
}
