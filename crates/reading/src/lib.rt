// Reading the word of a diagram: its operands, then the instruction.
#![tactic(auto)]

ghost use Rattle.std.specs.Prelude.{◌≡◌, ◌<◌, ◌≤◌};
ghost use Rattle.std.specs.Option.{option_map};
ghost use Rattle.isa.specs.declared.instruction.Instruction.{Instruction};
ghost use Rattle.isa.specs.Decode.{read_at};

use isa::instruction::Instruction;
use readdata::{read_bitfield, read_bitop, read_iadd, read_imadd, read_scan, read_shift};
use readmasks::{read_compare, read_jump, read_pop_exec};
use readmoves::{read_get_sr, read_mov16, read_mov32};

// What is made of an instruction that is read. A type and not a closure, since a method can be inlined: with a closure, tried, reading the
// parts took half as long again.
pub trait Make {
    type Made;

    ghost made: { Instruction → Self.Made };

    fn make(i: Instruction) -> Self::Made
        ensures { result ≡ made i };
}

// What is made of the instruction that the word w is, read by the diagram at a place of the list.
// A place is a number, as in the definition `read_at`: the place in the list of the document.
#[tactic(auto, using(crate::proofs::Layouts::layouts))]
pub fn read_into<M: Make>(place: usize, w: u64) -> Option<M::Made>
    requires { place < 22 }
    ensures { result ≡ option_map M.made (read_at place w) }
{
    match place {
        0 => Some(M::make(read_mov16(w)?)),
        1 => Some(M::make(read_mov32(w)?)),
        2 => Some(M::make(read_get_sr(w)?)),
        3 => Some(M::make(read_iadd(w)?)),
        4 => Some(M::make(read_imadd(w)?)),
        5 => Some(M::make(Instruction::Bfi(read_bitfield(w)?))),
        6 => Some(M::make(Instruction::Bfeil(read_bitfield(w)?))),
        7 => Some(M::make(Instruction::Extr(read_bitfield(w)?))),
        8 => Some(M::make(Instruction::Shlhi(read_bitfield(w)?))),
        9 => Some(M::make(Instruction::Shrhi(read_bitfield(w)?))),
        10 => Some(M::make(Instruction::Asr(read_shift(w)?))),
        11 => Some(M::make(Instruction::Asrh(read_shift(w)?))),
        12 => Some(M::make(read_bitop(w)?)),
        13 => Some(M::make(Instruction::Bitrev(read_scan(w)?))),
        14 => Some(M::make(Instruction::Popcount(read_scan(w)?))),
        15 => Some(M::make(Instruction::Ffs(read_scan(w)?))),
        16 => Some(M::make(Instruction::JmpExecAny { off: read_jump(w) })),
        17 => Some(M::make(Instruction::JmpExecNone { off: read_jump(w) })),
        18 => Some(M::make(read_pop_exec(w))),
        19 => Some(M::make(Instruction::IfIcmp(read_compare(w)?))),
        20 => Some(M::make(Instruction::WhileIcmp(read_compare(w)?))),
        _ => Some(M::make(Instruction::ElseIcmp(read_compare(w)?))),
    }
}

// The instruction itself.
struct AsIs;

impl Make for AsIs {
    type Made = Instruction;

    ghost made = { λ i. i };

    #[inline(always)]
    fn make(i: Instruction) -> Instruction {
        i
    }
}

// The word w, read by the diagram at a place of the list.
pub fn read(place: usize, w: u64) -> Option<Instruction>
    requires { place < 22 }
    ensures { result ≡ read_at place w }
{
    read_into::<AsIs>(place, w)
}
