// The three demands of the station as theorems over box and harvester together, and document 01's judged examples. There
// is no code here: specs/ has the statements' words, and proofs/ the theorems.
#![tactic(auto)]
