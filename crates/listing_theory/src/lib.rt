// Theory of the sheet as text. What an input line asks for is declared here. Definitions are in specs/,
// theorems in proofs/; there is no function here.
#![tactic(auto)]

// The parameters that an input line spells.
#[derive(Clone, Copy)]
pub struct Asked {
    pub t: u32,
    pub r: u32,
}
