// Document 01's "Slots worth checking" that are marked D, and values that meet the premises of the leaves' and the ends' laws: theory alone,
// no functions.

#![tactic(auto)]
