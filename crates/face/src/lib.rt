// The face tied to its promises: no code. specs/Face.antt states of each public operation that its code meets its promise; the proof is the function's own.
#![tactic(auto)]
