// What is proved of lines that are written, beside their promise. Nothing here runs: the statements are in specs/, the theorems in
// proofs/.
#![tactic(auto)]
