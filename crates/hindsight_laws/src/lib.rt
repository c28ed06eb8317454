// What holds of months added one by one, as theorems over the definitions that the promises of `history::add` and
// `forward::look_forward` cite. Nothing here runs: the theorems are in proofs/Hindsight.antt and proofs/Adds.antt.
#![tactic(auto)]
