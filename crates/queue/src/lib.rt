// The writers' queue: its interface, the queue that any order of waiting tasks is,
// and the queue Ring.
#![tactic(auto)]

pub mod interface;
pub mod order;
pub mod ordered;
pub mod refusal;
pub mod ring;
