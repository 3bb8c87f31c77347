// The threads by themselves: visits of single threads, in any order, and the theorem that every order leaves what the run leaves. This
// crate has no code; specs/ has the visits and proofs/ the theorem.
#![tactic(auto)]
