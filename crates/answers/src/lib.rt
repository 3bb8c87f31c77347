// Answers as numbers and bytes: of a run, and what the exported functions return.
#![tactic(auto)]

pub mod returned;
pub mod run;
