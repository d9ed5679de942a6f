// Sheets for lines good and bad, one after the other: document 01's form of the input, executed. Of the longest
// sheets only the front and the length are printed; `make check-sheet` compares all of them.
#![tactic(auto)]

use std::io;

// No sheet is longer than the buffer: `fits` in crate listing_theory, specs/Claims.antt.
#[tactic(auto, using(listing_theory::proofs::Sheets::in_buffer))]
fn show(rt: &impl Print, line: &str) -> io::Result<()> {
    let mut text = [0u8; 65536];
    let n = listing::sheet(line.as_bytes(), &mut text);
    let (sheet, _) = text.split_at(n);
    rt.write_all(sheet)
}

// A buffer too short for the text gets as much of it as fits, and the length is told all the same.
fn short(rt: &impl Print, line: &str) -> io::Result<()> {
    let mut text = [b'.'; 32];
    let n = listing::sheet(line.as_bytes(), &mut text);
    rt.write_all(&text)?;
    println!(rt; "..\n{n}")
}

// A longer buffer keeps its further bytes.
fn long(rt: &impl Print) -> io::Result<()> {
    let mut text = [b'.'; 16];
    listing::sheet(b"1 1\n", &mut text);
    rt.write_all(&text)?;
    println!(rt)
}

const GOOD: [&str; 7] = [
    "2 1\n",
    "2 2\n",
    "0003 02\n",
    "2 0\n",
    "4 0\n",
    "9 0\n",
    "0002 0000\n",
];

const NOT_ADMITTED: [&str; 8] = [
    "0 0\n",
    "1 1\n",
    "5 2\n",
    "4 5\n",
    "11 5\n",
    "13 7\n",
    "13 0\n",
    "9999 9999\n",
];

const MALFORMED: [&str; 18] = [
    "",
    "\n",
    "3\n",
    "3 2",
    "3 \n",
    " 3 2\n",
    "3  2\n",
    "3\t2\n",
    "3 2 \n",
    "3 2\r\n",
    "3 2\n\n",
    "3 2\nx",
    "00003 2\n",
    "3 00002\n",
    "+3 2\n",
    "3 -2\n",
    "3,2\n",
    "three 2\n",
];

fn main(rt: HostRuntime) -> io::Result<()> {
    for line in GOOD.iter().chain(&NOT_ADMITTED).chain(&MALFORMED) {
        show(&rt, line)?;
    }
    for line in ["3 2\n", "11 6\n", "12 6\n", "12 12\n", "12 0\n"] {
        short(&rt, line)?;
    }
    long(&rt)
}
