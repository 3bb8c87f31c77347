// What all 32 threads of a step read and write. Each loop does one kind of operand for all threads, so that the compiler can do
// several threads at once.
#![tactic(auto)]

pub mod results;
pub mod sources;
