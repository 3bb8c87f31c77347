// Where a run keeps what it has found out of an address: in a slot, with the address beside it.
#![tactic(auto)]

ghost use Rattle.std.specs.Prelude.{◌≡◌, ◌/◌, ◌%◌, eqb};

pub const SLOTS: usize = 256;

// Instructions have four bytes at least, so those of 1,024 bytes in a row have different slots.
pub fn slot_of(address: usize) -> usize
    ensures { result ≡ address / 4 % 256 }
{
    address / 4 % SLOTS
}

// Whether what is kept is this address's, and not that of another with the same slot.
// A function, since `kept == address` at its call would not say what is asked.
pub fn is_of(kept: usize, address: usize) -> bool
    ensures { result ≡ eqb kept address }
{
    kept == address
}
