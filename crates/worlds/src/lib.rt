// Worlds: no code. The definitions are in specs/, demand 3's statement in specs/Demand3.antt, its proof in proofs/.
#![tactic(auto)]
