// Finding the diagram of the instruction at the start of some bytes. Any slice may be lent; the first eight bytes are looked at, at most.
#![tactic(auto)]

ghost use Rattle.std.specs.Prelude.{◌≡◌, min, ◌<◌};
ghost use Rattle.bits.specs.Word.{ones};
ghost use Rattle.isa.specs.Find.{find_of};

use isa::answer::Refusal;

pub mod low;
pub mod matching;

// How many of n bytes a word holds.
pub fn held(n: usize) -> usize
    ensures { result ≡ min 8 n }
{
    n.min(8)
}

// Ones at all the bits of n bytes. A table: a shift is no plainer, since 8 bytes would need a case of their own.
pub fn ones_of(n: usize) -> u64
    requires { n < 9 }
    ensures { result ≡ ones n }
{
    match n {
        0 => 0,
        1 => 0xff,
        2 => 0xffff,
        3 => 0xffffff,
        4 => 0xffffffff,
        5 => 0xffffffffff,
        6 => 0xffffffffffff,
        7 => 0xffffffffffffff,
        _ => 0xffffffffffffffff,
    }
}

// The place of the diagram in the list and the length of the instruction, or why there is none.
pub fn find(code: &[u8]) -> Result<(usize, usize), Refusal>
    ensures { result ≡ find_of code.now }
{
    matching::find_first(bits::word(code), held(code.len()))
}
