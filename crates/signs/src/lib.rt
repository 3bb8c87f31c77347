// Values with a sign: sign extension, and the arithmetic shifts asr and asrh, all modulo 2^64.
#![tactic(auto)]

ghost use Rattle.std.specs.Prelude.{◌≡◌, ℕ, ◌/◌, ◌^◌, ◌<◌};
ghost use Rattle.std.specs.Int.Signed.{shr_z};
ghost use Rattle.machine.specs.Integer.{modulo};
ghost use Rattle.machine.specs.Meaning as meaning;
ghost use Rattle.operations.specs.Operation.{Sized};
ghost use Rattle.signs.specs.Signed.{signed_of};

// x, sign-extended from its bit size where signed is 1, modulo 2^64. Both cases run the same arithmetic, so that a loop over the threads
// becomes vector instructions.
// `Sized` is asked by three: the size is a byte of `Sum` and `Test`, whose definitions take any.
pub fn extend(x: u64, signed: u8, size: u8) -> u64
    requires { Sized size }
    ensures { result ≡ modulo (meaning.extended signed size x) 64 }
{
    let top = if signed == 1 { 1u64 << (size - 1) } else { 0 };
    (x ^ top).wrapping_sub(top)
}

// A shift to the right by any amount. fields has this line too; an edge from this crate to that one would be no plainer.
fn shift(x: u64, k: u64) -> u64
    ensures { result ≡ x / 2 ^ k }
{
    if k < 64 { x >> k } else { 0 }
}

// The same of a signed number, rounded down.
fn shift_signed(x: u64, k: u64) -> u64
    ensures { result ≡ modulo (shr_z (signed_of x) (2 ^ k)) 64 }
{
    if x < 9223372036854775808 {
        shift(x, k)
    } else {
        !shift(!x, k)
    }
}

pub fn asr(size: u8, a: u64, b: u64) -> u64
    requires { Sized size × (a < 2 ^ size) }
    ensures { (c : ℕ) → result ≡ modulo (meaning.asr size a b c) 64 }
{
    shift_signed(extend(a, 1, size), b & 127)
}

// Up by 32 and down by the amount is one shift by what is left of the two.
pub fn asrh(size: u8, a: u64, b: u64) -> u64
    requires { Sized size × (a < 2 ^ size) }
    ensures { (c : ℕ) → result ≡ modulo (meaning.asrh size a b c) 64 }
{
    let x = extend(a, 1, size);
    let amount = b & 127;
    if amount < 32 {
        x << (32 - amount)
    } else {
        shift_signed(x, amount - 32)
    }
}
