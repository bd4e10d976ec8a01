// Demand 3 of document 01, about the definitions alone: specs/ states it, proofs/ proves it, and there is nothing to run.
#![tactic(auto)]
