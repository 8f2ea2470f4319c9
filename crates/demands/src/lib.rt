// The demands: no code. The three demands are stated whole in specs/Demands.antt, about what C sees, and proved in proofs/.
#![tactic(auto)]
