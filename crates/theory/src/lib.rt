// The theory of tables, for any form of entries: definitions in specs/, laws in proofs/. There is nothing to run.
#![tactic(auto)]
