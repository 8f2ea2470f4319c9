// What follows from the rules: no code. Document 01's steps as families, the same as tables that compute, and that the two agree.
#![tactic(auto)]
