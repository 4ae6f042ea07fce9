// The lock: a number, a memory, a queue, the records of its tasks, and the wall table that it guards.
use crate::records::Records;

// It is open where it has a task. The table is lent to the lock for as long as it lives, so nobody else can touch its rows.
#[derive(Drop)]
pub struct Lock<'a, M, Q> {
    pub(crate) number: u32,
    pub(crate) memory: M,
    pub(crate) queue: Q,
    pub(crate) records: Records,
    pub(crate) table: &'a mut [u32],
}
