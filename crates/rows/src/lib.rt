// Rows in words, for any kind of row: definitions in specs/, laws in proofs/. There is nothing to run.
#![tactic(auto)]
