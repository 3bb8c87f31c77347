// Reading the words of the other data instructions: sums, bitfields, shifts, bitop and scans. One function for each layout.
// Those of one instruction alone are inlined, so that what is made of it is made at once.
#![tactic(auto, unfolding(isa::specs::Rows::rows, isa::specs::Together::with_unary, isa::specs::Together::with_binary, isa::specs::Together::with_ternary))]

ghost use Rattle.std.specs.Prelude.{◌≡◌};
ghost use Rattle.std.specs.Option.{option_map};
ghost use Rattle.isa.specs.Decode.{read_at};
ghost use Rattle.isa.specs.Read.{bitfield, shift, scan};
ghost use Rattle.operands.specs.AtPlace.{fields_at, kept_at};

use isa::instruction::{Bitfield, Instruction, Scan, Shift};
use operands::{read_binary, read_ternary, read_unary};

#[inline(always)]
pub fn read_iadd(w: u64) -> Option<Instruction>
    ensures { result ≡ read_at 3 w }
{
    let operands = read_binary(true, true, w, 44)?;
    Some(Instruction::Iadd {
        operands,
        saturate: ((w >> 6) % 2) as u8,
        negate: ((w >> 27) % 2) as u8,
        a_signed: ((w >> 26) % 2) as u8,
        b_signed: ((w >> 38) % 2) as u8,
        shift: ((w >> 52) % 4 * 2 + (w >> 39) % 2) as u8,
        kept: w & 0xffcfc00000000000,
    })
}

#[inline(always)]
pub fn read_imadd(w: u64) -> Option<Instruction>
    ensures { result ≡ read_at 4 w }
{
    let operands = read_ternary(true, w)?;
    Some(Instruction::Imadd {
        operands,
        saturate: ((w >> 6) % 2) as u8,
        negate: ((w >> 27) % 2) as u8,
        a_signed: ((w >> 26) % 2) as u8,
        b_signed: ((w >> 38) % 2) as u8,
        c_signed: ((w >> 50) % 2) as u8,
        shift: ((w >> 52) % 4 * 2 + (w >> 39) % 2) as u8,
        kept: w & 0xc008000000000000,
    })
}

pub fn read_bitfield(w: u64) -> Option<Bitfield>
    ensures { (make : _) → option_map make result ≡ bitfield make (fields_at 5 w) (kept_at 5 w) }
{
    let operands = read_ternary(false, w)?;
    Some(Bitfield {
        operands,
        m: ((w >> 63) % 2 * 16 + ((w >> 50) % 4 * 4 + (w >> 38) % 4)) as u8,
        kept: w & 0x4030000000000000,
    })
}

// Alike in shape with read_scan, but of other operands and bits, each as its diagram has them.
pub fn read_shift(w: u64) -> Option<Shift>
    ensures { (make : _) → option_map make result ≡ shift make (fields_at 10 w) (kept_at 10 w) }
{
    let operands = read_binary(false, false, w, 60)?;
    Some(Shift {
        operands,
        kept: w & 0xc0ffffc000000000,
    })
}

#[inline(always)]
pub fn read_bitop(w: u64) -> Option<Instruction>
    ensures { result ≡ read_at 12 w }
{
    let operands = read_binary(false, false, w, 44)?;
    Some(Instruction::Bitop {
        operands,
        tt0: ((w >> 26) % 2) as u8,
        tt1: ((w >> 27) % 2) as u8,
        tt2: ((w >> 38) % 2) as u8,
        tt3: ((w >> 39) % 2) as u8,
        kept: w & 0xc00000000000,
    })
}

pub fn read_scan(w: u64) -> Option<Scan>
    ensures { (make : _) → option_map make result ≡ scan make (fields_at 13 w) (kept_at 13 w) }
{
    let operands = read_unary(false, false, w, 44)?;
    Some(Scan {
        operands,
        kept: w & 0xc30000000000,
    })
}
