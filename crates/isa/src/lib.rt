// The G13 instruction set: operands, instructions, and the answers of finding, decoding and encoding.
// What the bytes of an instruction mean stands in specs/.
#![tactic(auto)]

pub mod answer;
pub mod instruction;
pub mod operand;
pub mod parts;
