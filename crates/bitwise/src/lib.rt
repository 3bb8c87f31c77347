// The bit manipulation instructions on one thread's values, modulo two to the 64.
#![tactic(auto)]

ghost use Rattle.std.specs.Prelude.{◌≡◌, cond, ℕ, ◌*◌, ◌/◌, ◌^◌, ◌≤◌, ◌<◌};
ghost use Rattle.std.specs.Int.Bits.{bit_and, bit_or};
ghost use Rattle.machine.specs.Integer.{modulo};
ghost use Rattle.machine.specs.Meaning as meaning;
ghost use Rattle.bitwise.specs.Truths.{is_undefined};

use isa::parts::Truth;

// The tables of b and of its complement: the document leaves them undefined, and the result is a.
fn undefined(o: Truth) -> bool
    ensures { result ≡ is_undefined o.tt0 o.tt1 o.tt2 o.tt3 }
{
    o.tt0 == o.tt1 && o.tt2 == o.tt3 && o.tt0 != o.tt2
}

// x where the flag is set, no bit where it is not.
fn where_set(flag: u8, x: u64) -> u64
    ensures { result ≡ cond (meaning.is_set flag) x 0 }
{
    if flag == 1 { x } else { 0 }
}

pub fn bitop(o: Truth, a: u64, b: u64) -> u64
    ensures { (c : ℕ) → result ≡ modulo (meaning.bitop o.tt0 o.tt1 o.tt2 o.tt3 a b c) 64 }
{
    if undefined(o) {
        return a;
    }
    let neither = where_set(o.tt0, !a & !b);
    let only_a = where_set(o.tt1, a & !b);
    let only_b = where_set(o.tt2, !a & b);
    neither | only_a | only_b | where_set(o.tt3, a & b)
}

// Each two neighbouring fields of w bits, exchanged; the mask has ones at the lower of each two.
fn exchange(x: u64, w: u64, mask: u64) -> u64
    requires { (w ≤ 16) × (mask < 2 ^ 32) }
    ensures { result ≡ bit_or (bit_and x mask * 2 ^ w) (bit_and (x / 2 ^ w) mask) }
{
    ((x & mask) << w) | ((x >> w) & mask)
}

// Bits, then pairs, fours, bytes and halves of the low 32 bits are exchanged with their neighbours.
pub fn bitrev(a: u64) -> u64
    ensures { (b c : ℕ) → result ≡ modulo (meaning.bitrev a b c) 64 }
{
    let pairs = exchange(a % 0x1_0000_0000, 1, 0x5555_5555);
    let fours = exchange(pairs, 2, 0x3333_3333);
    let bytes = exchange(fours, 4, 0x0f0f_0f0f);
    let halves = exchange(bytes, 8, 0x00ff_00ff);
    exchange(halves, 16, 0x0000_ffff)
}

pub fn popcount(a: u64) -> u64
    ensures { (b c : ℕ) → result ≡ modulo (meaning.popcount a b c) 64 }
{
    u64::from((a % 0x1_0000_0000).count_ones())
}

// The place of the highest of the low 32 bits that is set; -1 where none is.
pub fn ffs(a: u64) -> u64
    ensures { (b c : ℕ) → result ≡ modulo (meaning.ffs a b c) 64 }
{
    let low = (a % 0x1_0000_0000) as u32;
    if low == 0 {
        return 0xffff_ffff_ffff_ffff;
    }
    u64::from(31 - low.leading_zeros())
}
