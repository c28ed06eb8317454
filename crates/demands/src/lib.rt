// The client's three demands, as theorems over the promises of the crate `drought`. Nothing here runs: the
// words are in specs/, the theorems in proofs/Demands.antt.
#![tactic(auto)]
