// The comparison of two kernels, as definitions: specs/ has them. No code but types.
#![tactic(auto)]

use isa::answer::Refusal;

// A field in which two instructions can differ. `Other` has the number of its lowest bit.
#[derive(Clone, Copy)]
pub enum Field {
    Instruction,
    Length,
    Destination,
    SourceA,
    SourceB,
    SourceC,
    Immediate,
    Other(u8),
    Hint,
    Bit,
}

#[derive(Clone, Copy)]
pub enum Kernel {
    First,
    Second,
}

// What the comparison answers: the same; or the address and the field in which they differ, the kernel that ended there, or the
// refusal and the kernel that it is of. Four ways to answer, so neither an Option nor a Result.
#[derive(Clone, Copy)]
pub enum Comparison {
    Same,
    Differs(usize, Field),
    Ended(usize, Kernel),
    Refused(usize, Refusal, Kernel),
}
