// The finished pool of the paper's form: which tables rights need, who stands at which place, and each word.
// Definitions in specs/, laws in proofs/. There is nothing to run.
#![tactic(auto)]
