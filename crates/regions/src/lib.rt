// The regions of a one-bit picture, their nesting and its listing: definitions and proofs, no code.

#![tactic(auto)]
