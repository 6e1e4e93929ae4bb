// Histories of both ends of the packed ring, computed over bytes: theory alone, no functions.

#![tactic(auto)]
