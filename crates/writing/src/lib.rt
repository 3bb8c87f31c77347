// The word of an instruction: its kept bits, the fixed bits, and each field at its bits.
#![tactic(auto)]

ghost use Rattle.std.specs.Prelude.{◌≡◌};
ghost use Rattle.encoding.specs.Write.{word_for};

use isa::instruction::Instruction;
use isa::parts::{Signs, Truth};
use rows::value_at;
use writedata::{word_bitfield, word_bitop, word_iadd, word_imadd, word_scan, word_shift};
use writemasks::{word_compare, word_jump, word_pop_exec};
use writemoves::{word_get_sr, word_mov16, word_mov32};

#[tactic(auto, unfolding(isa::specs::Rows::rows, isa::specs::Parts::parts_of, encoding::specs::Write::word_for, encoding::specs::Write::fields_for))]
pub fn word_for(i: Instruction) -> u64
    ensures { result ≡ word_for i }
{
    match i {
        Instruction::Mov16 { d, imm16, l, kept } => word_mov16(d, imm16, l, kept),
        Instruction::Mov32 { d, imm32, l, kept } => word_mov32(d, imm32, l, kept),
        Instruction::GetSr { d, sr, kept } => word_get_sr(d, sr, kept),
        Instruction::Iadd {
            operands,
            saturate,
            negate,
            a_signed: sa,
            b_signed: sb,
            shift,
            kept,
        } => {
            let signs = Signs {
                saturate,
                negate,
                sa,
                sb,
                sc: 0,
                shift,
            };
            word_iadd(operands, signs, kept)
        }
        Instruction::Imadd {
            operands,
            saturate,
            negate,
            a_signed: sa,
            b_signed: sb,
            c_signed: sc,
            shift,
            kept,
        } => {
            let signs = Signs {
                saturate,
                negate,
                sa,
                sb,
                sc,
                shift,
            };
            word_imadd(operands, signs, kept)
        }
        Instruction::Bfi(x) => word_bitfield(value_at(5), x),
        Instruction::Bfeil(x) => word_bitfield(value_at(6), x),
        Instruction::Extr(x) => word_bitfield(value_at(7), x),
        Instruction::Shlhi(x) => word_bitfield(value_at(8), x),
        Instruction::Shrhi(x) => word_bitfield(value_at(9), x),
        Instruction::Asr(x) => word_shift(value_at(10), x),
        Instruction::Asrh(x) => word_shift(value_at(11), x),
        Instruction::Bitop {
            operands,
            tt0,
            tt1,
            tt2,
            tt3,
            kept,
        } => {
            let truth = Truth { tt0, tt1, tt2, tt3 };
            word_bitop(operands, truth, kept)
        }
        Instruction::Bitrev(x) => word_scan(value_at(13), x),
        Instruction::Popcount(x) => word_scan(value_at(14), x),
        Instruction::Ffs(x) => word_scan(value_at(15), x),
        Instruction::JmpExecAny { off } => word_jump(value_at(16), off),
        Instruction::JmpExecNone { off } => word_jump(value_at(17), off),
        Instruction::PopExec { hint, n, kept } => word_pop_exec(hint, n, kept),
        Instruction::IfIcmp(x) => word_compare(value_at(19), x),
        Instruction::WhileIcmp(x) => word_compare(value_at(20), x),
        Instruction::ElseIcmp(x) => word_compare(value_at(21), x),
    }
}
