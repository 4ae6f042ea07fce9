// The text of a schedule: its lines, and the call or note that each line says.
// Lines, fields and notes are parts of the input; nothing is copied.
#![tactic(auto)]

pub mod call;
mod fields;
pub mod lines;
mod numbers;
pub mod parse;
pub mod reader;
pub mod refusal;
#[cfg(test)]
mod tests;
mod text;
