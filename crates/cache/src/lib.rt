// The cache layer, which stands on any memory and is a memory again.
#![tactic(auto)]

pub mod copies;
pub mod layer;
#[cfg(test)]
mod tests;
