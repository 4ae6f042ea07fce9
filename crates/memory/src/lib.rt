// What a memory of seven cells is: its interface, its cells by name, the
// operations and the refusals; and the memory that any store of seven numbers is.
#![tactic(auto)]

pub mod cells;
pub mod interface;
pub mod operation;
pub mod plain;
pub mod refusal;
pub mod store;
