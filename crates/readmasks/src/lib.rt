// Reading the words of the jumps and the mask instructions.
#![tactic(auto, unfolding(isa::specs::Rows::rows, isa::specs::Together::with_compared, isa::specs::Together::with_condition))]

ghost use Rattle.std.specs.Prelude.{◌≡◌, Some};
ghost use Rattle.std.specs.Option.{option_map};
ghost use Rattle.isa.specs.Decode.{read_at};
ghost use Rattle.isa.specs.Read.{compare};
ghost use Rattle.operands.specs.AtPlace.{fields_at, kept_at};

use isa::instruction::{Compare, Instruction};
use operands::{cache_hint, read_compared};

// The offset of a jump, alike in both.
pub fn read_jump(w: u64) -> u32
    ensures { result ≡ (fields_at 16 w "off").value }
{
    ((w >> 16) % 4294967296) as u32
}

// Inlined, so that what is made of the instruction is made at once.
#[inline(always)]
pub fn read_pop_exec(w: u64) -> Instruction
    ensures { Some result ≡ read_at 18 w }
{
    Instruction::PopExec {
        hint: cache_hint((w >> 7) % 2),
        n: ((w >> 11) % 4) as u8,
        kept: w & 0x100,
    }
}

pub fn read_compare(w: u64) -> Option<Compare>
    ensures { (make : _) → option_map make result ≡ compare make (fields_at 19 w) (kept_at 19 w) }
{
    let cc = (w >> 13) % 8;
    if cc % 4 == 3 {
        return None;
    }
    let operands = read_compared(w)?;
    Some(Compare {
        hint: cache_hint((w >> 7) % 2),
        cc: cc as u8,
        ccn: ((w >> 8) % 2) as u8,
        n: ((w >> 11) % 4) as u8,
        operands,
        kept: w & 0xc00000000000,
    })
}
