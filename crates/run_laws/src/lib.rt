// A run stays a run: what an add hands back, and the columns that it leaves, are refused neither 1 nor 7. Nothing here
// runs: the laws are in proofs/.
#![tactic(auto)]
