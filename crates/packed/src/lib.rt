// Both ends of the packed ring as one machine, and the promise of demand 3 for it: theory alone, no functions.

#![tactic(auto)]
