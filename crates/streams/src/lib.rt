// What takes bytes and what gives them. Each has an error of its own kind, of which nothing is known: code over any of them
// can make no error, so it fails only where they do.
#![tactic(auto)]

mod readers;
pub mod sink;
pub mod source;
#[cfg(test)]
mod tests;
mod writers;
pub mod writing;
