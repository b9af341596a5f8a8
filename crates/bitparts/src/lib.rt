// Rooms and rows of packed points while a result is made a source row at a time: laws, no code.

#![tactic(auto)]
