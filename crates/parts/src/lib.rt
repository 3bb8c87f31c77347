// The parts of an instruction.
#![tactic(auto)]

ghost use Rattle.std.specs.Prelude.{◌≡◌};
ghost use Rattle.isa.specs.Parts.{parts_of, place_of, same};

use isa::instruction::Instruction;
use isa::parts::{Parts, Signs, Truth};
use numbers::build::{
    no_signs, no_truth, of_binary, of_bitfield, of_compare, of_dst, of_jump, of_pop, of_scan,
    of_shift, of_ternary,
};

// Inlined, so that an instruction that was just read is not made before its parts are.
#[inline(always)]
pub fn parts_of(i: Instruction) -> Parts
    ensures { result ≡ parts_of i }
{
    match i {
        Instruction::Mov16 { d, imm16, l, kept } => of_dst(1, d, u32::from(imm16), l, kept),
        Instruction::Mov32 { d, imm32, l, kept } => of_dst(2, d, imm32, l, kept),
        Instruction::GetSr { d, sr, kept } => of_dst(3, d, u32::from(sr), 0, kept),
        Instruction::Iadd {
            operands,
            saturate,
            negate,
            a_signed: sa,
            b_signed: sb,
            shift,
            kept,
        } => {
            let signs = Signs {
                saturate,
                negate,
                sa,
                sb,
                sc: 0,
                shift,
            };
            of_binary(4, operands, signs, no_truth(), kept)
        }
        Instruction::Imadd {
            operands,
            saturate,
            negate,
            a_signed: sa,
            b_signed: sb,
            c_signed: sc,
            shift,
            kept,
        } => {
            let signs = Signs {
                saturate,
                negate,
                sa,
                sb,
                sc,
                shift,
            };
            of_ternary(5, operands, 0, signs, kept)
        }
        Instruction::Bfi(x) => of_bitfield(6, x),
        Instruction::Bfeil(x) => of_bitfield(7, x),
        Instruction::Extr(x) => of_bitfield(8, x),
        Instruction::Shlhi(x) => of_bitfield(9, x),
        Instruction::Shrhi(x) => of_bitfield(10, x),
        Instruction::Asr(x) => of_shift(11, x),
        Instruction::Asrh(x) => of_shift(12, x),
        Instruction::Bitop {
            operands,
            tt0,
            tt1,
            tt2,
            tt3,
            kept,
        } => {
            let truth = Truth { tt0, tt1, tt2, tt3 };
            of_binary(13, operands, no_signs(), truth, kept)
        }
        Instruction::Bitrev(x) => of_scan(14, x),
        Instruction::Popcount(x) => of_scan(15, x),
        Instruction::Ffs(x) => of_scan(16, x),
        Instruction::JmpExecAny { off } => of_jump(17, off),
        Instruction::JmpExecNone { off } => of_jump(18, off),
        Instruction::PopExec { hint, n, kept } => of_pop(19, hint, n, kept),
        Instruction::IfIcmp(x) => of_compare(20, x),
        Instruction::WhileIcmp(x) => of_compare(21, x),
        Instruction::ElseIcmp(x) => of_compare(22, x),
    }
}

// The place of the instruction's diagram in the list of rows, counted from 0.
pub fn place(i: Instruction) -> usize
    ensures { result ≡ place_of i }
{
    let p = parts_of(i);
    usize::from(p.kind) - 1
}

// Whether two instructions are the same: all their numbers are.
pub fn same(i: Instruction, j: Instruction) -> bool
    ensures { result ≡ same i j }
{
    parts_of(i) == parts_of(j)
}
