// What holds of every month of spells, as theorems over the definition that the promise of `spells::step` cites.
// Nothing here runs: the words are in specs/, the theorems in proofs/Theorems.antt and proofs/Mirror.antt.
#![tactic(auto)]
