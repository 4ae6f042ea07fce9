// Words: a memory of seven 32-bit numbers.
#![tactic(auto)]

pub mod array;
#[cfg(test)]
mod tests;
