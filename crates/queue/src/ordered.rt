// Whatever keeps the waiting tasks in their order is a queue.
use crate::interface::{Queue, known};
use crate::order::Order;
use crate::refusal::Refusal;

impl<O: Order> Queue for O {
    ghost waiting = { O.tasks };

    fn join(&mut self, task: u32) -> Result<(), Refusal> {
        known(task)?;
        if !self.append(task) {
            return Err(Refusal::Waiting);
        }
        Ok(())
    }

    fn first(&self, task: u32) -> Result<bool, Refusal> {
        known(task)?;
        Ok(self.is_oldest(task))
    }

    fn quit(&mut self, task: u32) -> Result<(), Refusal> {
        known(task)?;
        if !self.remove(task) {
            return Err(Refusal::NotOldest);
        }
        Ok(())
    }

    fn length(&self) -> u32 {
        self.held()
    }
}
