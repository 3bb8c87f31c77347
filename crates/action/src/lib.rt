// An instruction as what it reads, what it computes and what it writes.
#![tactic(auto)]

ghost use Rattle.action.specs.Acts.{Acts, Narrow};

mod acts;

use acts::source_size;
use isa::instruction::Instruction;
use isa::parts::Truth;
use operations::action::{Action, Kind};
use operations::{Operation, Sum};

#[tactic(auto, unfolding(machine::specs::Meaning::meaning_of))]
pub fn action_of(i: Instruction) -> Action
    requires { Narrow i }
    ensures { Acts result i }
{
    match i {
        Instruction::Mov16 { d, imm16, .. } => acts::without_source(
            d,
            Operation::Mov(u32::from(imm16)),
        ),
        Instruction::Mov32 { d, imm32, .. } => acts::without_source(d, Operation::Mov(imm32)),
        Instruction::GetSr { d, sr, .. } => acts::special(d, sr),
        Instruction::Iadd {
            operands,
            saturate,
            negate,
            a_signed,
            b_signed,
            shift,
            ..
        } => {
            let sum = Sum {
                saturate,
                negate,
                asigned: a_signed,
                bsigned: b_signed,
                shift,
                ..acts::plain_sum(operands)
            };
            acts::binary(operands, Operation::Iadd(sum))
        }
        Instruction::Imadd {
            operands,
            saturate,
            negate,
            a_signed,
            b_signed,
            c_signed,
            shift,
            ..
        } => {
            let product = Sum {
                saturate,
                negate,
                asigned: a_signed,
                bsigned: b_signed,
                csigned: c_signed,
                shift,
                ..acts::plain_product(operands)
            };
            acts::ternary(operands, Operation::Imadd(product))
        }
        Instruction::Bfi(o) => acts::ternary(o.operands, Operation::Bfi(o.m)),
        Instruction::Bfeil(o) => acts::ternary(o.operands, Operation::Bfeil(o.m)),
        Instruction::Extr(o) => acts::ternary(o.operands, Operation::Extr(o.m)),
        Instruction::Shlhi(o) => acts::ternary(o.operands, Operation::Shlhi(o.m)),
        Instruction::Shrhi(o) => acts::ternary(o.operands, Operation::Shrhi(o.m)),
        Instruction::Asr(o) => acts::binary(o.operands, Operation::Asr(source_size(o.operands.a))),
        Instruction::Asrh(o) => acts::binary(
            o.operands,
            Operation::Asrh(source_size(o.operands.a)),
        ),
        Instruction::Bitop {
            operands,
            tt0,
            tt1,
            tt2,
            tt3,
            ..
        } => acts::binary(operands, Operation::Bitop(Truth { tt0, tt1, tt2, tt3 })),
        Instruction::Bitrev(o) => acts::unary(o.operands, Operation::Bitrev),
        Instruction::Popcount(o) => acts::unary(o.operands, Operation::Popcount),
        Instruction::Ffs(o) => acts::unary(o.operands, Operation::Ffs),
        Instruction::JmpExecAny { off } => acts::jumps(Kind::JumpsIfAny, off),
        Instruction::JmpExecNone { off } => acts::jumps(Kind::JumpsIfNone, off),
        Instruction::PopExec { n, .. } => acts::pops(n),
        Instruction::IfIcmp(o) => acts::compares(o.operands, Operation::IfIcmp(acts::test(o))),
        Instruction::WhileIcmp(o) => acts::compares(
            o.operands,
            Operation::WhileIcmp(acts::test(o)),
        ),
        Instruction::ElseIcmp(o) => acts::compares(o.operands, Operation::ElseIcmp(acts::test(o))),
    }
}
