// Theory of the calls on a record: their answers and refusals, and the three demands. The records
// that calls take and give are declared here; three of them as C lays them out, for crates timed and steps hand
// them to it. Definitions are in specs/, theorems in proofs/; there is no function here.
#![tactic(auto)]

// Which code it is, of which s places are left out, how many corrections were accepted, and what they
// came to. The last two counts are what document 01 calls "mended binary" and "mended in pairs".
#[repr(C)]
#[derive(Clone, Copy)]
pub struct Record {
    pub t: u32,
    pub r: u32,
    pub s: u32,
    pub words: u32,
    pub clean: u32,
    pub corrected_binary: u32,
    pub corrected_pairs: u32,
}

#[derive(Clone, Copy)]
pub struct Opened {
    pub refusal: u32,
    pub record: Record,
}

// `place` is 0 but with refusal 4, whose byte stands there, and where the answer is a place.
#[repr(C)]
#[derive(Clone, Copy)]
pub struct Answer {
    pub refusal: u32,
    pub place: u32,
}

// The number of an element.
#[derive(Clone, Copy)]
pub struct ElementAnswer {
    pub refusal: u32,
    pub place: u32,
    pub element: u32,
}

// Yes or no.
#[derive(Clone, Copy)]
pub struct TestAnswer {
    pub refusal: u32,
    pub place: u32,
    pub yes: bool,
}

// What correction and commit answer: the place that they changed, 0 for none, and the record with its counts.
#[repr(C)]
#[derive(Clone, Copy)]
pub struct Corrected {
    pub refusal: u32,
    pub place: u32,
    pub record: Record,
}

// n − s and n − t − s.
#[derive(Clone, Copy)]
pub struct Size {
    pub places: u32,
    pub message: u32,
}
