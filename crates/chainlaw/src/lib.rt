// What the search for a chain finds, and where there is none to find: definitions and proofs, no code.

#![tactic(auto)]
