// What is proved of the calls of `engine`: demands 2 and 3, 02 (e), and 01's starred examples. The crate has no code: its
// statements are in specs/, its theorems in proofs/Theorems.antt.
#![tactic(auto)]
