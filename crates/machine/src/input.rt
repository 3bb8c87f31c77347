// One of the up to three sources of a step.
use isa::operand::Src;

// One of three things, so no Option.
#[derive(Clone, Copy)]
pub enum Input {
    Nothing,
    Operand(Src),
    Special(u8),
}
