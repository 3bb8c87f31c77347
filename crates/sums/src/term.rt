// The second summand of iadd and imadd.
ghost use Rattle.std.specs.Prelude.{◌≡◌, pos};
ghost use Rattle.machine.specs.Integer.{modulo};
ghost use Rattle.machine.specs.Meaning.{negated, scaled};

fn opposite(x: u64, negate: u8) -> u64
    ensures { result ≡ modulo (negated negate (pos x)) 64 }
{
    if negate == 1 { x.wrapping_neg() } else { x }
}

pub fn term(x: u64, negate: u8, shift: u8) -> u64
    ensures { result ≡ modulo (scaled shift (negated negate (pos x))) 64 }
{
    if shift < 5 {
        opposite(x, negate) << shift
    } else {
        0
    }
}
