// The numbers of an instruction: its parts by layout.
#![tactic(auto)]

pub mod build;
mod operand;
