// What the promises say: no code. Each leaves one answer, no refusal has number 0, and wrong answers at the worked site are ruled out.
#![tactic(auto)]
