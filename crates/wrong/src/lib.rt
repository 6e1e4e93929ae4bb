// Wrong rings, each with a history that breaks the promise of demand 3: theory alone, no functions.

#![tactic(auto)]
