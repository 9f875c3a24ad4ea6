// What is left of a running script: one byte for each node. The crate has no code: its definitions are in specs/, their
// laws in proofs/.
#![tactic(auto)]
