// Theory behind the code: the numbers of one sign in blocks, by which the code finds places and
// sums. No claim speaks of it. Definitions are in specs/, theorems in proofs/; there is no function
// here.
#![tactic(auto)]

// The sign of an element: its first odd quaternary component, or zero where every one is even. An
// element of sign zero is its own negative, and the negative of one of sign 1 has sign 3.
#[derive(Clone, Copy)]
pub enum Sign {
    Zero,
    One,
    Three,
}

// Which elements' numbers are meant: those of sign zero, of sign 1, or of every sign but 3.
#[derive(Clone, Copy)]
pub enum Kind {
    Even,
    Plus,
    Low,
}
