// The words of the moves: mov16, mov32 and get_sr. Kept bits, the fixed bits of the table, and each field at its bits, in the order of
// the diagram.
#![tactic(auto, unfolding(isa::specs::Rows::rows, isa::specs::Parts::parts_of, encoding::specs::Write::word_for, encoding::specs::Write::fields_for))]

ghost use Rattle.std.specs.Prelude.{◌≡◌};
ghost use Rattle.encoding.specs.Write.{word_for};

use flags::of_dst;
use isa::instruction::Instruction;
use isa::operand::Dst;
use rows::value_at;

// Beside word_mov32: each reads like its own diagram; one for both would take the bit numbers of the diagram as arguments.
pub fn word_mov16(d: Dst, imm16: u16, l: u8, kept: u64) -> u64
    ensures { result ≡ word_for (Instruction.Mov16 d imm16 l kept) }
{
    let d = of_dst(d);
    kept | value_at(0)
        | d.t << 7
        | d.v % 64 << 9
        | u64::from(l) << 15 // L, the bit of the long form
        | u64::from(imm16) << 16
        | d.v / 64 << 44
}

pub fn word_mov32(d: Dst, imm32: u32, l: u8, kept: u64) -> u64
    ensures { result ≡ word_for (Instruction.Mov32 d imm32 l kept) }
{
    let d = of_dst(d);
    kept | value_at(1)
        | d.t << 7
        | d.v % 64 << 9
        | u64::from(l) << 15
        | u64::from(imm32) << 16
        | d.v / 64 << 60
}

pub fn word_get_sr(d: Dst, sr: u8, kept: u64) -> u64
    ensures { result ≡ word_for (Instruction.GetSr d sr kept) }
{
    let d = of_dst(d);
    let sr = u64::from(sr);
    kept | value_at(2) | d.t << 7 | d.v % 64 << 9 | sr % 64 << 16 | sr / 64 << 26 | d.v / 64 << 28
}
