// Document 01's cases, wrong answers that the definitions rule out, and that rules may repeat and come in any order: no code.
#![tactic(auto)]
