// Demand 3, as a theorem about the rules: specs/Demand3.antt states it, proofs/ proves it. There is no code here.

#![tactic(auto)]
