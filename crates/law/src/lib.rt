// The law behind the frame rule: definitions and proofs, no code.

#![tactic(auto)]
