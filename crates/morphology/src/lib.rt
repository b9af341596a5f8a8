// No code: the definitions of the operations and of chains, their laws, and the worked table.

#![tactic(auto)]
