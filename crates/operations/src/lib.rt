// What an instruction computes from the values of its sources: one case for each meaning in document 002, in document order.
#![tactic(auto)]

pub mod action;

use isa::parts::Truth;

// The flags of iadd and imadd and the bit sizes of their operands; iadd has no C.
#[derive(Clone, Copy)]
pub struct Sum {
    pub saturate: u8,
    pub negate: u8,
    pub asigned: u8,
    pub bsigned: u8,
    pub csigned: u8,
    pub shift: u8,
    pub asize: u8,
    pub bsize: u8,
    pub csize: u8,
    pub dsize: u8,
}

// A condition, the bit sizes of what it compares, and the number n beside it.
#[derive(Clone, Copy)]
pub struct Test {
    pub cc: u8,
    pub ccn: u8,
    pub asize: u8,
    pub bsize: u8,
    pub n: u8,
}

#[derive(Clone, Copy)]
pub enum Operation {
    Mov(u32),
    GetSr,
    Iadd(Sum),
    Imadd(Sum),
    Bfi(u8),
    Bfeil(u8),
    Extr(u8),
    Shlhi(u8),
    Shrhi(u8),
    Asr(u8),
    Asrh(u8),
    Bitop(Truth),
    Bitrev,
    Popcount,
    Ffs,
    PopExec(u8),
    IfIcmp(Test),
    WhileIcmp(Test),
    ElseIcmp(Test),
}
