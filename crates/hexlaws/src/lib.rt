// Theorems on Intel HEX: what is written is read again, which text holds a kernel, and which row is refused and why. No code; proofs/ has
// the theorems.
#![tactic(auto)]
