// The refusals' conditions in the rules' words, both ways and on any bytes: theory alone, no functions.

#![tactic(auto)]
