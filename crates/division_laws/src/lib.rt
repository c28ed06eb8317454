// What is proved of the reading of a division file beside its promises. Nothing here runs: the theorems are in proofs/.
#![tactic(auto)]
