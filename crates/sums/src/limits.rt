// A word whose top bit is a sign, limited.
ghost use Rattle.std.specs.Prelude.{◌≡◌, pos, neg_ℤ};
ghost use Rattle.machine.specs.Integer.{limit, modulo, saturate_integer};
ghost use Rattle.operations.specs.Operation.{Sized};
ghost use Rattle.signs.specs.Signed.{signed_of};

// x, no less than -below and no more than high.
fn between(x: u64, below: u64, high: u64) -> u64
    ensures { result ≡ modulo (limit (neg_ℤ (pos below)) (pos high) (signed_of x)) 64 }
{
    if x < 9223372036854775808 {
        u64::min(x, high)
    } else {
        if 18446744073709551615 - x < below {
            x
        } else {
            below.wrapping_neg()
        }
    }
}

// x, limited to what a destination of the size holds.
pub fn limited(x: u64, size: u8, signed: bool) -> u64
    requires { Sized size }
    ensures { result ≡ modulo (saturate_integer (signed_of x) size signed) 64 }
{
    let half = 1u64 << (size - 1);
    if signed {
        between(x, half, half - 1)
    } else {
        between(x, 0, half - 1 + half)
    }
}
