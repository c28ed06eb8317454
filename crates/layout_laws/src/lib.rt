// What is proved of the reader of lines beside its promises. Nothing here runs: the theorems are in proofs/.
#![tactic(auto)]
