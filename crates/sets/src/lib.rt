// Sets of tasks from 1 to 64 as one number: bit t - 1 is 1 where the task t is in the set.
#![tactic(auto)]

pub mod tasks;
