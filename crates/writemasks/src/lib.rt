// The words of the jumps and the mask instructions. Kept bits, the fixed bits of the table, and each field at its bits, in the order of
// the diagram. One function for each layout: where diagrams share it, it is given their fixed bits.
#![tactic(auto, unfolding(isa::specs::Rows::rows, isa::specs::Parts::parts_of, encoding::specs::Write::word_for, encoding::specs::Write::fields_for))]

ghost use Rattle.std.specs.Prelude.{◌≡◌};
ghost use Rattle.encoding.specs.Layout.{jump_word, compare_word};
ghost use Rattle.encoding.specs.Write.{word_for};

use flags::{cache_bit, of_src};
use isa::instruction::{Compare, Instruction};
use isa::operand::Hint;
use rows::value_at;

pub fn word_jump(fixed: u64, off: u32) -> u64
    ensures { result ≡ jump_word fixed off }
{
    fixed | u64::from(off) << 16
}

pub fn word_pop_exec(h: Hint, n: u8, kept: u64) -> u64
    ensures { result ≡ word_for (Instruction.PopExec h n kept) }
{
    kept | value_at(18) | cache_bit(h) << 7 | u64::from(n) << 11
}

pub fn word_compare(fixed: u64, x: Compare) -> u64
    ensures { result ≡ compare_word fixed x }
{
    let a = of_src(x.operands.a);
    let b = of_src(x.operands.b);
    x.kept
        | fixed
        | cache_bit(x.hint) << 7
        | u64::from(x.ccn) << 8
        | u64::from(x.n) << 11
        | u64::from(x.cc) << 13
        | a.v % 64 << 16
        | a.t << 22
        | b.v % 64 << 28
        | b.t << 34
        | b.v / 64 << 40
        | a.v / 64 << 42
}
