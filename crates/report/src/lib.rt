// RR-5594's own relation, with fresh names, and that a script run in place makes its steps. The crate has no code: its
// definitions are in specs/, its theorems in proofs/Theorems.antt.
#![tactic(auto)]
