// The paper's twelve benchmarks as theorems on the contracts: rows in specs/, their proofs in proofs/. There is
// nothing to run.
#![tactic(auto)]
