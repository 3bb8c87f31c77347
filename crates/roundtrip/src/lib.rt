// Theorems on decoding and encoding: what was decoded is encoded to the same bytes, what is encoded decodes to what was given, and
// why an instruction has no encoding. This crate has no code; proofs/ has the theorems.
#![tactic(auto)]
