// Theorems of the comparison of two kernels; proofs/ has them. No code.
#![tactic(auto)]
