// What the program `palmer` prints for an input, and that its reading and its printing come to that. Nothing here runs: the
// definition is in specs/, the theorems are in proofs/.
#![tactic(auto)]
