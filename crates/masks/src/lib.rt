// Masks: a queue that keeps for each waiting task the set of those before it.
#![tactic(auto)]

pub mod before;
mod strike;
#[cfg(test)]
mod tests;
