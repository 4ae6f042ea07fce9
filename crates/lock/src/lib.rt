// The lock over any memory and any queue: its tasks' records and the calls.
#![tactic(auto)]

mod access;
pub mod by_task;
pub mod caching;
pub mod calling;
pub mod cases;
mod deeds;
mod ending;
pub mod locks;
pub mod opening;
pub mod pass;
pub mod passing;
pub mod questions;
mod readying;
pub mod records;
pub mod rows;
mod settling;
pub mod spending;
mod task;
#[cfg(test)]
mod tests;
