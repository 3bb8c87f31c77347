// The questions that the pages of iadd and imadd ask of their flags.
ghost use Rattle.std.specs.Prelude.{◌≡◌, ◌==◌, nat_le};
ghost use Rattle.machine.specs.Meaning.{both, either, is_set};

// Whether results are limited. x, y and z are the bit sizes that have to be 32 or less, 0 for one that the page does not name.
pub fn saturating(saturate: u8, shift: u8, x: u8, y: u8, z: u8) -> bool
    ensures { result ≡ both (is_set saturate) (both (shift == 0) (both (nat_le x 32) (both (nat_le y 32) (nat_le z 32)))) }
{
    saturate == 1 && shift == 0 && x <= 32 && y <= 32 && z <= 32
}

// Whether a flag is set; 0 for one that the page does not name.
pub fn signed(x: u8, y: u8, z: u8) -> bool
    ensures { result ≡ either (is_set x) (either (is_set y) (is_set z)) }
{
    x == 1 || y == 1 || z == 1
}
