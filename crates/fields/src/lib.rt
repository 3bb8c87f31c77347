// The shift and bit field instructions on one thread's values, modulo two to the 64.
#![tactic(auto)]

ghost use Rattle.std.specs.Prelude.{◌≡◌};
ghost use Rattle.machine.specs.Integer.{modulo};
ghost use Rattle.machine.specs.Meaning as meaning;

mod shift;

use crate::shift::{across, amount, down, mask, up};

// m, a, b and c are the letters of the document in each of these: a struct of them would name nothing.
pub fn bfi(m: u8, a: u64, b: u64, c: u64) -> u64
    ensures { result ≡ modulo (meaning.bfi m a b c) 64 }
{
    let s = amount(c);
    let ones = mask(m);
    let kept = a & !up(ones, s);
    kept | up(b & ones, s)
}

pub fn bfeil(m: u8, a: u64, b: u64, c: u64) -> u64
    ensures { result ≡ modulo (meaning.bfeil m a b c) 64 }
{
    let s = amount(c);
    let ones = mask(m);
    let kept = a & !ones;
    kept | (down(b, s) & ones)
}

pub fn extr(m: u8, a: u64, b: u64, c: u64) -> u64
    ensures { result ≡ modulo (meaning.extr m a b c) 64 }
{
    let s = amount(c);
    let high = across(b, 32, s);
    let both = high | down(a, s);
    both & mask(m)
}

pub fn shlhi(m: u8, a: u64, b: u64, c: u64) -> u64
    ensures { result ≡ modulo (meaning.shlhi m a b c) 64 }
{
    let s = amount(c);
    let ones = up(mask(m), s.saturating_sub(32));
    (across(b, s, 32) & ones) | (a & !ones)
}

pub fn shrhi(m: u8, a: u64, b: u64, c: u64) -> u64
    ensures { result ≡ modulo (meaning.shrhi m a b c) 64 }
{
    let s = amount(c);
    let ones = up(mask(m), 32u64.saturating_sub(s));
    (across(b, 32, s) & ones) | (a & !ones)
}
