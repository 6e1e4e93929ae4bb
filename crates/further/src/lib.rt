// Beside demand 3, of the packed ring: what the ends' counts count, both ends reset, and when an armed end is told. Theory alone, no functions.

#![tactic(auto)]
