// Where a run goes on after an instruction, and which instructions are refused: registers and special registers that are not lent, and
// targets outside the code. And whether an instruction discards.
#![tactic(auto)]

ghost use Rattle.std.specs.Prelude.{◌≡◌, ◌<◌, ◌^◌};
ghost use Rattle.machine.specs.Integer.{sign_extend};
ghost use Rattle.machine.specs.Meaning.{jumps};
ghost use Rattle.machine.specs.Step.{registers_reach, specials_reach, going_of};
ghost use Rattle.operations.specs.Action.{meaning_by};
ghost use Rattle.jumps.specs.AsGoing.{as_going};
ghost use Rattle.going.specs.Discards.{hinted, discarding};

use isa::answer::Refusal;
use isa::operand::Hint;
use jumps::Class;
use machine::input::Input;
use operations::action::{Action, Kind};

// How many registers there have to be.
pub fn registers_reach(action: Action) -> u16
    ensures { result ≡ registers_reach (meaning_by action) }
{
    let a = reach::input(action.a);
    let b = reach::input(action.b);
    match action.kind {
        Kind::Writes => reach::destination(action.d).max(a.max(b.max(reach::input(action.c)))),
        Kind::Masks => 1.max(a.max(b)),
        Kind::JumpsIfAny | Kind::JumpsIfNone => 0,
    }
}

// How many special registers there have to be.
pub fn specials_reach(action: Action) -> u16
    ensures { result ≡ specials_reach (meaning_by action) }
{
    let a = reach::special(action.a);
    let b = reach::special(action.b);
    match action.kind {
        Kind::Writes => a.max(b.max(reach::special(action.c))),
        Kind::Masks => a.max(b),
        Kind::JumpsIfAny | Kind::JumpsIfNone => 0,
    }
}

fn discards_in(x: Input) -> bool
    ensures { result ≡ hinted x }
{
    match x {
        Input::Operand(a) => matches!(a.hint, Hint::Discard),
        Input::Nothing | Input::Special(_) => false,
    }
}

// Whether a source has the hint discard.
pub fn discards(action: Action) -> bool
    ensures { result ≡ discarding action }
{
    discards_in(action.a) || discards_in(action.b) || discards_in(action.c)
}

#[tactic(auto, unfolding(machine::specs::Step::going_of))]
fn jumps_to(
    any: bool,
    off: u32,
    length: usize,
    bytes: usize,
    address: usize,
    mask: u32,
) -> Result<(usize, Class), Refusal>
    requires { (address < 2 ^ 32) × (bytes < 2 ^ 32) }
    ensures { as_going result ≡ going_of (jumps any (sign_extend off 32)) length bytes address mask }
{
    if jumps::taken(any, mask) {
        jumps::landing(length, address, off)
    } else {
        Ok((address + bytes, Class::JumpNotTaken))
    }
}

// The address to go on at, with the class of the step, or the refusal.
#[tactic(auto, unfolding(machine::specs::Step::going_of))]
pub fn goes_to(
    action: Action,
    length: usize,
    bytes: usize,
    address: usize,
    mask: u32,
) -> Result<(usize, Class), Refusal>
    requires { (address < 2 ^ 32) × (bytes < 2 ^ 32) }
    ensures { as_going result ≡ going_of (meaning_by action) length bytes address mask }
{
    match action.kind {
        Kind::Writes => Ok((address + bytes, Class::Data)),
        Kind::Masks => Ok((address + bytes, Class::Mask)),
        Kind::JumpsIfAny => jumps_to(true, action.off, length, bytes, address, mask),
        Kind::JumpsIfNone => jumps_to(false, action.off, length, bytes, address, mask),
    }
}
