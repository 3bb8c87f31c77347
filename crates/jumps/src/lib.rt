// Jumps: whether one is taken, and where it lands.
#![tactic(auto)]

ghost use Rattle.std.specs.Prelude.{◌≡◌, ◌<◌, ◌^◌, pos, ◌+ℤ◌};
ghost use Rattle.machine.specs.Integer.{sign_extend};
ghost use Rattle.machine.specs.Step.{taken, landing};
ghost use Rattle.jumps.specs.AsGoing.{as_going, class_number};

use isa::answer::Refusal;

// The class of a step; its number is the one in the step's record.
#[derive(Clone, Copy, PartialEq, Eq)]
pub enum Class {
    Data = 1,
    Mask = 2,
    JumpNotTaken = 3,
    JumpTaken = 4,
}

impl Class {
    // Not From<Class> for u8: `u8::from(class)` would not say which number it is.
    pub fn number(self) -> u8
        ensures { result ≡ class_number self }
    {
        self as u8
    }
}

pub fn taken(any: bool, mask: u32) -> bool
    ensures { result ≡ taken any mask }
{
    if any { mask != 0 } else { mask == 0 }
}

// An even target that is not above the code length.
fn at(length: usize, target: usize) -> Result<(usize, Class), Refusal>
    ensures { as_going result ≡ landing length (pos target) }
{
    if target % 2 != 0 || length < target {
        return Err(Refusal::BadTarget);
    }
    Ok((target, Class::JumpTaken))
}

// The address to go on at, with the class of the step, or the refusal. The offset counts from the jump's first byte; from 2^31 on it is
// negative.
pub fn landing(length: usize, address: usize, off: u32) -> Result<(usize, Class), Refusal>
    requires { address < 2 ^ 32 }
    ensures { as_going result ≡ landing length (pos address +ℤ sign_extend off 32) }
{
    let off = off as usize;
    if off < 0x80000000 {
        return at(length, address + off);
    }
    let back = 0x100000000 - off;
    if address < back {
        return Err(Refusal::BadTarget);
    }
    at(length, address - back)
}
