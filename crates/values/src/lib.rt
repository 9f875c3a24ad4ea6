// The values of registers and signals: signed numbers of 32 bits, the operators on them, and their words.
#![tactic(auto)]

pub mod arithmetic; // arithmetic.rt: the operators whose results are clamped
pub mod comparison; // comparison.rt: the operators that give 1 or 0
pub mod words; // words.rt: values as words of 32 bits
