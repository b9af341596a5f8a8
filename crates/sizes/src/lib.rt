// Definitions and laws of the size spectrum: no code.

#![tactic(auto)]
