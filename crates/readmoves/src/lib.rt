// Reading the words of the moves: mov16, mov32 and get_sr. They are inlined, so that what is made of an instruction is made at once.
#![tactic(auto, unfolding(isa::specs::Rows::rows, isa::specs::Together::with_dst))]

ghost use Rattle.std.specs.Prelude.{◌≡◌};
ghost use Rattle.isa.specs.Decode.{read_at};

use isa::instruction::Instruction;
use operands::destination;

// Beside read_mov32: each reads like its own diagram; one for both would take the bit numbers of the diagram as arguments.
#[inline(always)]
pub fn read_mov16(w: u64) -> Option<Instruction>
    ensures { result ≡ read_at 0 w }
{
    let d = destination(false, w, 44)?;
    Some(Instruction::Mov16 {
        d,
        imm16: ((w >> 16) % 65536) as u16,
        l: ((w >> 15) % 2) as u8,
        kept: w & 0xcfff00000000,
    })
}

#[inline(always)]
pub fn read_mov32(w: u64) -> Option<Instruction>
    ensures { result ≡ read_at 1 w }
{
    let d = destination(false, w, 60)?;
    Some(Instruction::Mov32 {
        d,
        imm32: ((w >> 16) % 4294967296) as u32,
        l: ((w >> 15) % 2) as u8,
        kept: w & 0xcfff000000000000,
    })
}

#[inline(always)]
pub fn read_get_sr(w: u64) -> Option<Instruction>
    ensures { result ≡ read_at 2 w }
{
    let d = destination(false, w, 28)?;
    Some(Instruction::GetSr {
        d,
        sr: ((w >> 26) % 4 * 64 + (w >> 16) % 64) as u8,
        kept: w & 0xc3c00000,
    })
}
