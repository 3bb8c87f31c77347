// Shifts by any amount, and the mask of a bit field.
ghost use Rattle.std.specs.Prelude.{◌≡◌, ◌*◌, ◌/◌, ◌%◌, ◌^◌};
ghost use Rattle.machine.specs.Integer.{modulo};
ghost use Rattle.machine.specs.Meaning.{shift_amount, mask_of};

// The shift amount that the document takes of c: 0 to 127.
pub fn amount(c: u64) -> u64
    ensures { result ≡ shift_amount c }
{
    c & 127
}

// x << k, modulo two to the 64.
pub fn up(x: u64, k: u64) -> u64
    ensures { result ≡ x * 2 ^ k % 2 ^ 64 }
{
    if k < 64 { x << k } else { 0 }
}

// x >> k
pub fn down(x: u64, k: u64) -> u64
    ensures { result ≡ x / 2 ^ k }
{
    if k < 64 { x >> k } else { 0 }
}

// (x << j) >> k, modulo two to the 64; x << j need not fit.
pub fn across(x: u64, j: u64, k: u64) -> u64
    ensures { result ≡ x * 2 ^ j / 2 ^ k % 2 ^ 64 }
{
    if k <= j { up(x, j - k) } else { down(x, k - j) }
}

// The low m bits, or 32 for m = 0, modulo two to the 64.
pub fn mask(m: u8) -> u64
    ensures { result ≡ modulo (mask_of m) 64 }
{
    if m == 0 {
        return 0xffff_ffff;
    }
    if m < 64 {
        (1 << m) - 1
    } else {
        0xffff_ffff_ffff_ffff
    }
}
