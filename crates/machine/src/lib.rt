// The lockstep machine: what an instruction reads, and what a run answers. What it does stands in specs/.
#![tactic(auto)]

pub mod answer;
pub mod input;
