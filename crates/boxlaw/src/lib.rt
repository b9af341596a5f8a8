// What a rectangle joins, and that a row of windows over a padded row is a row of it: laws, no code.

#![tactic(auto)]
