// Histories of calls and answers, and what it is that completions meet their own submissions: theory alone, no functions.

#![tactic(auto)]
