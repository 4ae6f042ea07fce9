// Packed: a memory whose seven cells are fields of one 32-bit number.
#![tactic(auto)]

pub mod word;
