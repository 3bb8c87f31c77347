// The words of the other data instructions: sums, bitfields, shifts, bitop and scans. Kept bits, the fixed bits of the table, and each
// field at its bits, in the order of the diagram. One function for each layout: where diagrams share it, it is given their fixed bits.
// The lines of an operand stand in each: a function for them would be no plainer, since the fields of two operands alternate in a diagram.
#![tactic(auto, unfolding(isa::specs::Rows::rows, isa::specs::Parts::parts_of, encoding::specs::Write::word_for, encoding::specs::Write::fields_for))]

ghost use Rattle.std.specs.Prelude.{◌≡◌};
ghost use Rattle.encoding.specs.Layout.{bitfield_word, shift_word, scan_word};
ghost use Rattle.encoding.specs.Write.{word_for};

use flags::{of_dst, of_src};
use isa::instruction::{Bitfield, Instruction, Scan, Shift};
use isa::operand::{Binary, Ternary};
use isa::parts::{Signs, Truth};
use rows::value_at;

pub fn word_iadd(o: Binary, signs: Signs, kept: u64) -> u64
    ensures { result ≡ word_for (Instruction.Iadd o signs.saturate signs.negate signs.sa signs.sb signs.shift kept) }
{
    let d = of_dst(o.d);
    let a = of_src(o.a);
    let b = of_src(o.b);
    let shift = u64::from(signs.shift);
    kept | value_at(3)
        | u64::from(signs.saturate) << 6
        | d.t << 7
        | d.v % 64 << 9
        | a.v % 64 << 16
        | a.t << 22
        | u64::from(signs.sa) << 26
        | u64::from(signs.negate) << 27
        | b.v % 64 << 28
        | b.t << 34
        | u64::from(signs.sb) << 38
        | shift % 2 << 39
        | b.v / 64 << 40
        | a.v / 64 << 42
        | d.v / 64 << 44
        | shift / 2 << 52
}

pub fn word_imadd(o: Ternary, signs: Signs, kept: u64) -> u64
    ensures { result ≡ word_for (Instruction.Imadd o signs.saturate signs.negate signs.sa signs.sb signs.sc signs.shift kept) }
{
    let d = of_dst(o.d);
    let a = of_src(o.a);
    let b = of_src(o.b);
    let c = of_src(o.c);
    let shift = u64::from(signs.shift);
    kept | value_at(4)
        | u64::from(signs.saturate) << 6
        | d.t << 7
        | d.v % 64 << 9
        | a.v % 64 << 16
        | a.t << 22
        | u64::from(signs.sa) << 26
        | u64::from(signs.negate) << 27
        | b.v % 64 << 28
        | b.t << 34
        | u64::from(signs.sb) << 38
        | shift % 2 << 39
        | c.v % 64 << 40
        | c.t << 46
        | u64::from(signs.sc) << 50
        | shift / 2 << 52
        | c.v / 64 << 54
        | b.v / 64 << 56
        | a.v / 64 << 58
        | d.v / 64 << 60
}

pub fn word_bitfield(fixed: u64, x: Bitfield) -> u64
    ensures { result ≡ bitfield_word fixed x }
{
    let o = x.operands;
    let d = of_dst(o.d);
    let a = of_src(o.a);
    let b = of_src(o.b);
    let c = of_src(o.c);
    let m = u64::from(x.m);
    x.kept
        | fixed
        | d.t << 7
        | d.v % 64 << 9
        | a.v % 64 << 16
        | a.t << 22
        | b.v % 64 << 28
        | b.t << 34
        | m % 4 << 38
        | c.v % 64 << 40
        | c.t << 46
        | m / 4 % 4 << 50
        | c.v / 64 << 54
        | b.v / 64 << 56
        | a.v / 64 << 58
        | d.v / 64 << 60
        | m / 16 << 63
}

pub fn word_shift(fixed: u64, x: Shift) -> u64
    ensures { result ≡ shift_word fixed x }
{
    let o = x.operands;
    let d = of_dst(o.d);
    let a = of_src(o.a);
    let b = of_src(o.b);
    x.kept
        | fixed
        | d.t << 7
        | d.v % 64 << 9
        | a.v % 64 << 16
        | a.t << 22
        | b.v % 64 << 28
        | b.t << 34
        | b.v / 64 << 56
        | a.v / 64 << 58
        | d.v / 64 << 60
}

pub fn word_bitop(o: Binary, truth: Truth, kept: u64) -> u64
    ensures { result ≡ word_for (Instruction.Bitop o truth.tt0 truth.tt1 truth.tt2 truth.tt3 kept) }
{
    let d = of_dst(o.d);
    let a = of_src(o.a);
    let b = of_src(o.b);
    kept | value_at(12)
        | d.t << 7
        | d.v % 64 << 9
        | a.v % 64 << 16
        | a.t << 22
        | u64::from(truth.tt0) << 26
        | u64::from(truth.tt1) << 27
        | b.v % 64 << 28
        | b.t << 34
        | u64::from(truth.tt2) << 38
        | u64::from(truth.tt3) << 39
        | b.v / 64 << 40
        | a.v / 64 << 42
        | d.v / 64 << 44
}

pub fn word_scan(fixed: u64, x: Scan) -> u64
    ensures { result ≡ scan_word fixed x }
{
    let o = x.operands;
    let d = of_dst(o.d);
    let a = of_src(o.a);
    x.kept
        | fixed
        | d.t << 7
        | d.v % 64 << 9
        | a.v % 64 << 16
        | a.t << 22
        | a.v / 64 << 42
        | d.v / 64 << 44
}
