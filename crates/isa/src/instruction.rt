// A decoded instruction: one case for each diagram, in the order of document 002. Fields bear the document's names or, where
// those are single letters, what they stand for; joined fields are one number. `kept` holds the bits that the document marks "?",
// each at its own place in the word.
use crate::operand::{Binary, Compared, Dst, Hint, Ternary, Unary};

// bfi, bfeil, extr, shlhi, shrhi
#[derive(Clone, Copy)]
pub struct Bitfield {
    pub operands: Ternary,
    pub m: u8,
    pub kept: u64,
}

// asr, asrh
#[derive(Clone, Copy)]
pub struct Shift {
    pub operands: Binary,
    pub kept: u64,
}

// bitrev, popcount, ffs
#[derive(Clone, Copy)]
pub struct Scan {
    pub operands: Unary,
    pub kept: u64,
}

// if_icmp, while_icmp, else_icmp. The hint is that of r0l, which is read and written for every thread.
#[derive(Clone, Copy)]
pub struct Compare {
    pub hint: Hint,
    pub cc: u8,
    pub ccn: u8,
    pub n: u8,
    pub operands: Compared,
    pub kept: u64,
}

#[derive(Clone, Copy)]
pub enum Instruction {
    Mov16 {
        d: Dst,
        imm16: u16,
        l: u8,
        kept: u64,
    },
    Mov32 {
        d: Dst,
        imm32: u32,
        l: u8,
        kept: u64,
    },
    GetSr {
        d: Dst,
        sr: u8,
        kept: u64,
    },
    Iadd {
        operands: Binary,
        saturate: u8,
        negate: u8,
        a_signed: u8,
        b_signed: u8,
        shift: u8,
        kept: u64,
    },
    Imadd {
        operands: Ternary,
        saturate: u8,
        negate: u8,
        a_signed: u8,
        b_signed: u8,
        c_signed: u8,
        shift: u8,
        kept: u64,
    },
    Bfi(Bitfield),
    Bfeil(Bitfield),
    Extr(Bitfield),
    Shlhi(Bitfield),
    Shrhi(Bitfield),
    Asr(Shift),
    Asrh(Shift),
    Bitop {
        operands: Binary,
        tt0: u8,
        tt1: u8,
        tt2: u8,
        tt3: u8,
        kept: u64,
    },
    Bitrev(Scan),
    Popcount(Scan),
    Ffs(Scan),
    JmpExecAny {
        off: u32,
    },
    JmpExecNone {
        off: u32,
    },
    PopExec {
        hint: Hint,
        n: u8,
        kept: u64,
    },
    IfIcmp(Compare),
    WhileIcmp(Compare),
    ElseIcmp(Compare),
}
