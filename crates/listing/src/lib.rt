// The lines of a listing, written into a lent buffer, or through a buffer to a sink. Each is the number of a
// line, a space, a text, and byte 10: the text is a note, or tells an answer.
#![tactic(auto)]

pub mod answer;
mod appending;
mod digits;
mod holding;
pub mod output;
pub mod refusal;
#[cfg(test)]
mod tests;
pub mod write;
