// The tree that a checked script file holds.
#![tactic(auto)]

pub mod sizes; // sizes.rt: how many nodes each process has
