// An instruction taken apart into numbers, each under one name in every instruction: what the byte form lays out, and what the
// fields of a diagram are made of. A part that the instruction does not have is 0.

// An operand: its kind (0 is none), its hint and its number. docs/byte-form.md has the numbers of kinds and hints.
#[derive(Clone, Copy, PartialEq, Eq)]
pub struct Slot {
    pub kind: u8,
    pub hint: u8,
    pub number: u16,
}

// S, N, As, Bs, Cs and the shift of iadd and imadd
#[derive(Clone, Copy, PartialEq, Eq)]
pub struct Signs {
    pub saturate: u8,
    pub negate: u8,
    pub sa: u8,
    pub sb: u8,
    pub sc: u8,
    pub shift: u8,
}

// The truth table of bitop
#[derive(Clone, Copy, PartialEq, Eq)]
pub struct Truth {
    pub tt0: u8,
    pub tt1: u8,
    pub tt2: u8,
    pub tt3: u8,
}

// The condition and the depth of a mask instruction
#[derive(Clone, Copy, PartialEq, Eq)]
pub struct Condition {
    pub cc: u8,
    pub ccn: u8,
    pub n: u8,
}

// `kind` is 1 for the first diagram of the list. A mask instruction has no `d`, but the hint of r0l stands there.
#[derive(Clone, Copy, PartialEq, Eq)]
pub struct Parts {
    pub kind: u8,
    pub d: Slot,
    pub a: Slot,
    pub b: Slot,
    pub c: Slot,
    pub immediate: u32,
    pub l: u8,
    pub m: u8,
    pub signs: Signs,
    pub truth: Truth,
    pub condition: Condition,
    pub kept: u64,
}
