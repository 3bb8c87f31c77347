// The word of an instruction, as definitions: specs/ has them. No code but a type.
#![tactic(auto)]

// What a word holds of an operand: the joined number v, as Dx:D, and the flags t, as Dt.
#[derive(Clone, Copy)]
pub struct Numbers {
    pub v: u64,
    pub t: u64,
}
