// A picture by a flat element, a source row at a time, at either depth: definitions and proofs, no code.

#![tactic(auto)]
