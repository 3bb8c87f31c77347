// The marked bench examples of the statement of what to build: definitions and one theorem, no code.
#![tactic(auto)]
