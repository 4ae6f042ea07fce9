// The writers' queue: the tasks that wait, oldest first.
//
// The meaning of a queue is that list. An implementation shows that its calls
// do to the list what the clauses below say, and nothing more is asked of it.
ghost use Rattle.std.specs.Prelude.{◌≡◌, ℕ, List, length as size};
ghost use Rattle.queue.specs.Waiting.{known_task};
ghost use Rattle.queue.specs.Calls.{Joins, Quits, first_told};

use crate::refusal::Refusal;

pub trait Queue {
    // the numbers of the waiting tasks, oldest first
    ghost waiting: { Self → List ℕ };

    // Appends the task. Refused: 1, and 5 where it waits already.
    fn join(&mut self, task: u32) -> Result<(), Refusal>
        ensures { Joins waiting self.old task result self.new };

    // Whether the task is the oldest. Refused: 1.
    fn first(&self, task: u32) -> Result<bool, Refusal>
        ensures { result ≡ first_told (waiting self.now) task };

    // Removes the oldest, which the task has to be. Refused: 1, and 6 where it is not.
    fn quit(&mut self, task: u32) -> Result<(), Refusal>
        ensures { Quits waiting self.old task result self.new };

    // How many wait.
    fn length(&self) -> u32
        ensures { result ≡ size (waiting self.now) };
}

// The question on the task alone. A memory asks it too (`place`), each with its own refusal.
pub fn known(task: u32) -> Result<(), Refusal>
    ensures { result ≡ known_task task }
{
    if task < 1 || task > 64 {
        return Err(Refusal::Task);
    }
    Ok(())
}
