// The demands as theorems on the contracts: definitions in specs/, theorems in proofs/. There is nothing to run.
#![tactic(auto)]
