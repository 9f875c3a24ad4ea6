// The language of scripts: its trees, steps and levels, the report's rules, and the theorems about them. Its code is the
// kinds, by their numbers; the definitions are in specs/, the theorems in proofs/Theorems.antt.
#![tactic(auto)]

pub mod process_kinds; // process_kinds.rt: the kinds of processes
pub mod expression_kinds; // expression_kinds.rt: the kinds of expressions
