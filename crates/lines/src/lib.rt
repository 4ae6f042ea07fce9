// The lines of the lock: where a task is, the one deed of each line, and what a
// line makes of its task by what it found.
#![tactic(auto)]

mod classes;
pub mod deed;
pub mod place;
pub mod starts;
pub mod track;
