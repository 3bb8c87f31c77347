// The answer of a run.
use isa::answer::Refusal;

// How a run ended. Refused has the number of specs/Refusal.antt of the instruction set.
// Three ways to end, which have numbers: no Result.
#[derive(Clone, Copy)]
pub enum Ending {
    Finished,
    Spent,
    Refused(Refusal),
}

// How it ended, the steps done, the address it stands at and the mask.
#[derive(Clone, Copy)]
pub struct Answer {
    pub ending: Ending,
    pub steps: usize,
    pub address: usize,
    pub mask: u32,
}
