// The calls of the lock as one machine: refusals, records and accounts of tasks,
// and in specs/ what each call asks, answers and leaves.
#![tactic(auto)]

pub mod account;
mod census;
pub mod checking;
pub mod costs;
pub mod record;
pub mod refusal;
pub mod rule;
#[cfg(test)]
mod tests;
