// Reading 48 bytes as the instruction of a kind: one function for each layout. Bytes that the layout has no use for are not looked at.
// Kinds and hints come as bytes, by the numbers of docs/byte-form.md, which are the C interface.
#![tactic(auto)]

ghost use Rattle.std.specs.Prelude.{◌≡◌, ◌+◌, ◌^◌, ◌≤◌, ◌<◌};
ghost use Rattle.formread.specs.Read.{number_at, hint_from, destination_from, source_from, dst_at, src_at, kept_from};
ghost use Rattle.formread.specs.Read.{unary_from, binary_from, ternary_from, compared_from, bitfield_from, shift_from, scan_from, compare_from};
ghost use Rattle.formread.specs.Read.{mov16_from, mov32_from, get_sr_from, iadd_from, imadd_from, bitop_from, pop_exec_from, instruction_from};

use bits::word;
use isa::instruction::{Bitfield, Compare, Instruction, Scan, Shift};
use isa::operand::{Binary, Compared, Destination, Dst, Hint, Source, Src, Ternary, Unary};

// The little-endian number of n bytes from k on.
fn number_at(b: &[u8; 48], k: usize, n: usize) -> u64
    requires { (n ≤ 8) × (k + n ≤ 48) }
    ensures { (result ≡ number_at b.now k n) × (result < 256 ^ n) }
{
    word(&b[k..k + n])
}

fn hint_from(h: u8) -> Hint
    ensures { result ≡ hint_from h }
{
    match h {
        1 => Hint::Cache,
        2 => Hint::Discard,
        _ => Hint::None,
    }
}

fn destination_from(k: u8, x: u8) -> Destination
    ensures { result ≡ destination_from k x }
{
    match k {
        2 => Destination::Register(x),
        3 => Destination::Pair(x),
        _ => Destination::Half(x),
    }
}

fn source_from(k: u8, x: u8, hi: u8) -> Source
    ensures { result ≡ source_from k x hi }
{
    match k {
        2 => Source::Register(x),
        3 => Source::Pair(x),
        4 => Source::UniformHalf(u16::from(x) + 256 * u16::from(hi)),
        5 => Source::UniformRegister(x),
        6 => Source::UniformPair(x),
        7 => Source::Immediate(x),
        _ => Source::Half(x),
    }
}

fn dst_at(b: &[u8; 48], k: usize) -> Dst
    requires { k + 4 ≤ 48 }
    ensures { result ≡ dst_at b.now k }
{
    Dst {
        destination: destination_from(b[k], b[k + 2]),
        hint: hint_from(b[k + 1]),
    }
}

fn src_at(b: &[u8; 48], k: usize) -> Src
    requires { k + 4 ≤ 48 }
    ensures { result ≡ src_at b.now k }
{
    Src {
        source: source_from(b[k], b[k + 2], b[k + 3]),
        hint: hint_from(b[k + 1]),
    }
}

fn kept_from(b: &[u8; 48]) -> u64
    ensures { result ≡ kept_from b.now }
{
    number_at(b, 40, 8)
}

// Beside compared_from, and shift_from beside scan_from: they fill structs of two types, field by field.
fn unary_from(b: &[u8; 48]) -> Unary
    ensures { result ≡ unary_from b.now }
{
    Unary {
        d: dst_at(b, 4),
        a: src_at(b, 8),
    }
}

fn binary_from(b: &[u8; 48]) -> Binary
    ensures { result ≡ binary_from b.now }
{
    Binary {
        d: dst_at(b, 4),
        a: src_at(b, 8),
        b: src_at(b, 12),
    }
}

fn ternary_from(b: &[u8; 48]) -> Ternary
    ensures { result ≡ ternary_from b.now }
{
    Ternary {
        d: dst_at(b, 4),
        a: src_at(b, 8),
        b: src_at(b, 12),
        c: src_at(b, 16),
    }
}

fn compared_from(b: &[u8; 48]) -> Compared
    ensures { result ≡ compared_from b.now }
{
    Compared {
        a: src_at(b, 8),
        b: src_at(b, 12),
    }
}

fn bitfield_from(b: &[u8; 48]) -> Bitfield
    ensures { result ≡ bitfield_from b.now }
{
    Bitfield {
        operands: ternary_from(b),
        m: b[3],
        kept: kept_from(b),
    }
}

fn shift_from(b: &[u8; 48]) -> Shift
    ensures { result ≡ shift_from b.now }
{
    Shift {
        operands: binary_from(b),
        kept: kept_from(b),
    }
}

fn scan_from(b: &[u8; 48]) -> Scan
    ensures { result ≡ scan_from b.now }
{
    Scan {
        operands: unary_from(b),
        kept: kept_from(b),
    }
}

fn compare_from(b: &[u8; 48]) -> Compare
    ensures { result ≡ compare_from b.now }
{
    Compare {
        hint: hint_from(b[5]),
        cc: b[34],
        ccn: b[35],
        n: b[36],
        operands: compared_from(b),
        kept: kept_from(b),
    }
}

// Beside mov32_from: their immediates are of two widths, in two cases of Instruction.
fn mov16_from(b: &[u8; 48]) -> Instruction
    ensures { result ≡ mov16_from b.now }
{
    Instruction::Mov16 {
        d: dst_at(b, 4),
        imm16: number_at(b, 20, 2) as u16,
        l: b[2],
        kept: kept_from(b),
    }
}

fn mov32_from(b: &[u8; 48]) -> Instruction
    ensures { result ≡ mov32_from b.now }
{
    Instruction::Mov32 {
        d: dst_at(b, 4),
        imm32: number_at(b, 20, 4) as u32,
        l: b[2],
        kept: kept_from(b),
    }
}

fn get_sr_from(b: &[u8; 48]) -> Instruction
    ensures { result ≡ get_sr_from b.now }
{
    Instruction::GetSr {
        d: dst_at(b, 4),
        sr: b[20],
        kept: kept_from(b),
    }
}

fn iadd_from(b: &[u8; 48]) -> Instruction
    ensures { result ≡ iadd_from b.now }
{
    Instruction::Iadd {
        operands: binary_from(b),
        saturate: b[24],
        negate: b[25],
        a_signed: b[26],
        b_signed: b[27],
        shift: b[29],
        kept: kept_from(b),
    }
}

fn imadd_from(b: &[u8; 48]) -> Instruction
    ensures { result ≡ imadd_from b.now }
{
    Instruction::Imadd {
        operands: ternary_from(b),
        saturate: b[24],
        negate: b[25],
        a_signed: b[26],
        b_signed: b[27],
        c_signed: b[28],
        shift: b[29],
        kept: kept_from(b),
    }
}

fn bitop_from(b: &[u8; 48]) -> Instruction
    ensures { result ≡ bitop_from b.now }
{
    Instruction::Bitop {
        operands: binary_from(b),
        tt0: b[30],
        tt1: b[31],
        tt2: b[32],
        tt3: b[33],
        kept: kept_from(b),
    }
}

// The offset of a jump.
fn off_from(b: &[u8; 48]) -> u32
    ensures { result ≡ number_at b.now 20 4 }
{
    number_at(b, 20, 4) as u32
}

fn pop_exec_from(b: &[u8; 48]) -> Instruction
    ensures { result ≡ pop_exec_from b.now }
{
    Instruction::PopExec {
        hint: hint_from(b[5]),
        n: b[36],
        kept: kept_from(b),
    }
}

// The instruction of a kind from 1 to 22.
#[tactic(auto, unfolding(crate::specs::Read::instruction_from))]
pub fn instruction_from(kind: u8, b: &[u8; 48]) -> Instruction
    requires { (0 < kind) × (kind < 23) }
    ensures { result ≡ instruction_from kind b.now }
{
    match kind {
        1 => mov16_from(b),
        2 => mov32_from(b),
        3 => get_sr_from(b),
        4 => iadd_from(b),
        5 => imadd_from(b),
        6 => Instruction::Bfi(bitfield_from(b)),
        7 => Instruction::Bfeil(bitfield_from(b)),
        8 => Instruction::Extr(bitfield_from(b)),
        9 => Instruction::Shlhi(bitfield_from(b)),
        10 => Instruction::Shrhi(bitfield_from(b)),
        11 => Instruction::Asr(shift_from(b)),
        12 => Instruction::Asrh(shift_from(b)),
        13 => bitop_from(b),
        14 => Instruction::Bitrev(scan_from(b)),
        15 => Instruction::Popcount(scan_from(b)),
        16 => Instruction::Ffs(scan_from(b)),
        17 => Instruction::JmpExecAny { off: off_from(b) },
        18 => Instruction::JmpExecNone { off: off_from(b) },
        19 => pop_exec_from(b),
        20 => Instruction::IfIcmp(compare_from(b)),
        21 => Instruction::WhileIcmp(compare_from(b)),
        _ => Instruction::ElseIcmp(compare_from(b)),
    }
}
