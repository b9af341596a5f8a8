// No code: what document 01 demands of the library,
// each demand stated and proved in a file that a reader opens.

#![tactic(auto)]
