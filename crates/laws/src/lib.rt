// Mathematics: specs/ has the laws, over any element and any rule. The code is types: which way symbols go, and what every leaf walk answers.
// (specs/Walk.antt says what it promises.)
#![tactic(auto)]

// Which way symbols go: to the channel, or back from it.
#[derive(Clone, Copy)]
pub enum Way {
    Interleaver,
    Deinterleaver,
}

// What a walk of a family counts: addresses written and cells examined.
#[derive(Clone, Copy)]
pub struct Went {
    pub written: usize,
    pub cells: usize,
}

// The answer of a walk of a family: what it counts, or the number of its refusal.
pub type Leaf = Result<Went, u32>;
