// Theorems alone: what a producer wrote is what a consumer reads.

#![tactic(auto)]
