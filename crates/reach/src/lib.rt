// How many registers, or special registers, an operand needs.
#![tactic(auto)]

ghost use Rattle.std.specs.Prelude.{◌≡◌};
ghost use Rattle.machine.specs.Words.{destination_reach, source_reach, input_reach, special_reach};

use isa::operand::{Destination, Source};
use machine::input::Input;

pub fn destination(d: Destination) -> u16
    ensures { result ≡ destination_reach d }
{
    match d {
        Destination::Half(h) => u16::from(h / 2) + 1,
        Destination::Register(r) => u16::from(r) + 1,
        Destination::Pair(r) => u16::from(r) + 2,
    }
}

fn source(s: Source) -> u16
    ensures { result ≡ source_reach s }
{
    match s {
        Source::Half(h) => u16::from(h / 2) + 1,
        Source::Register(r) => u16::from(r) + 1,
        Source::Pair(r) => u16::from(r) + 2,
        Source::UniformHalf(_) | Source::UniformRegister(_) | Source::UniformPair(_) => 0,
        Source::Immediate(_) => 0,
    }
}

pub fn input(x: Input) -> u16
    ensures { result ≡ input_reach x }
{
    match x {
        Input::Operand(a) => source(a.source),
        Input::Nothing | Input::Special(_) => 0,
    }
}

pub fn special(x: Input) -> u16
    ensures { result ≡ special_reach x }
{
    match x {
        Input::Special(k) => u16::from(k) + 1,
        Input::Nothing | Input::Operand(_) => 0,
    }
}
