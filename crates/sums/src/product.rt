// The product of two words whose top bits are signs.
ghost use Rattle.std.specs.Prelude.{◌≡◌, ◌^◌, ◌<◌, min, ◌*ℤ◌, unsigned_abs};
ghost use Rattle.machine.specs.Integer.{modulo};
ghost use Rattle.signs.specs.Signed.{signed_of};
ghost use Rattle.sums.specs.Capped.{capped};

// The distance from 0.
fn magnitude(x: u64) -> u64
    ensures { result ≡ unsigned_abs (signed_of x) }
{
    if x < 9223372036854775808 {
        x
    } else {
        x.wrapping_neg()
    }
}

// x times y, no further from 0 than most. The remainders tell the compiler that one multiplication of 32 bits is enough.
pub fn product(x: u64, y: u64, most: u64) -> u64
    requires { (unsigned_abs (signed_of x) < 2 ^ 32) × (unsigned_abs (signed_of y) < 2 ^ 32) }
    ensures { result ≡ modulo (capped most (signed_of x *ℤ signed_of y)) 64 }
{
    let m = magnitude(x) % 4294967296;
    let n = magnitude(y) % 4294967296;
    let p = u64::min(m * n, most);
    if x >> 63 == y >> 63 {
        p
    } else {
        p.wrapping_neg()
    }
}
