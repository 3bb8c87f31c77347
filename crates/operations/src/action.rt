// What an instruction reads, computes and writes.
use crate::Operation;
use isa::operand::Destination;
use machine::input::Input;

// Data instructions write a destination, mask instructions work on r0l and the mask, jumps change the address.
#[derive(Clone, Copy)]
pub enum Kind {
    Writes,
    Masks,
    JumpsIfAny,
    JumpsIfNone,
}

// A struct, so that each part has a place of its own and need not be put together when the action is handed on. What a kind has no use
// for is the half 0, nothing, an operation that looks at nothing, or 0.
#[derive(Clone, Copy)]
pub struct Action {
    pub kind: Kind,
    pub d: Destination,
    pub a: Input,
    pub b: Input,
    pub c: Input,
    pub operation: Operation,
    pub off: u32,
}
