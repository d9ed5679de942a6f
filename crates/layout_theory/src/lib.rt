// Theory of the parameters and of the layout of places. Definitions are in specs/, theorems in
// proofs/; there is no function here.
#![tactic(auto)]

// The numbers of document 01's "Parameters"; every field is 0 where t and r are not admitted.
#[derive(Clone, Copy)]
pub struct Shape {
    // a and b: the components modulo 2 and those modulo 4
    pub a: usize,
    pub b: usize,
    // n: the places of a word
    pub places: u32,
    // k: the binary places
    pub binary: u32,
    // the places of a message
    pub message: u32,
}
