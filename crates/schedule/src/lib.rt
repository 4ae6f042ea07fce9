// Schedules: a schedule's lines are read one after another, each call is made to the lock, and the line of the listing is
// appended to an output or written into a lent buffer.
#![tactic(auto)]

mod answers;
pub mod desk;
pub mod desking;
pub mod laws;
pub mod printing;
pub mod refusal;
mod replies;
pub mod running;
pub mod schedule;
mod serving;
#[cfg(test)]
mod tests;
