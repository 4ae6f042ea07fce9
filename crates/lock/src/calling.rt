// The calls that move a task by one line.
ghost use Rattle.std.specs.Prelude.{◌≡◌, ◌≤◌, length};
ghost use Rattle.calls.specs.Steps.{advance, begin};
ghost use Rattle.lock.specs.Answers.{said};
ghost use Rattle.lock.specs.Performed.{PerformedNext};
ghost use Rattle.lock.specs.Tasks.{Finds, ready_line};
ghost use Rattle.lock.specs.View.{CarriesOut, Does, record_at, records_of};

use crate::deeds::{Told, perform};
use crate::locks::Lock;
use crate::task::{ReadyTask, Task};
use calls::refusal::Refusal;
use memory::interface::Memory;
use queue::interface::Queue;

impl Task {
    // Does the one deed of the task's next line.
    #[inline(always)]
    fn do_deed<M: Memory, Q: Queue>(self, memory: &mut M, queue: &mut Q) -> Result<Told, Refusal>
        ensures { PerformedNext M.Memory Q.Queue memory.old queue.old self result memory.new queue.new }
    {
        perform(
            memory,
            queue,
            self.number,
            self.state.track.deed(self.number),
        )
    }
}

impl<'a, M: Memory, Q: Queue> Lock<'a, M, Q> {
    // The task with this number. Refused: 10, 20.
    #[inline(always)]
    pub(crate) fn find(&self, number: u32) -> Result<Task, Refusal>
        ensures { Finds M.Memory Q.Queue self.now number result }
    {
        // the rare question last: a closed lock has no task
        match self.records.get(number) {
            Some(task) => Ok(task),
            None if self.is_open() => Err(Refusal::NoTask),
            None => Err(Refusal::Shut),
        }
    }

    // The task does its next line; its record is in place.
    #[inline(always)]
    fn do_next(&mut self, ready: ReadyTask) -> Result<(), Refusal>
        requires among { ready.task.number ≤ length (records_of self.old.records) }
        requires in_place { record_at (records_of self.old.records) ready.task.number ≡ ready.task.state }
        ensures { CarriesOut M.Memory Q.Queue (ready_line ready) self.old (said result) self.new }
    {
        let told = ready.task.do_deed(&mut self.memory, &mut self.queue)?;
        self.records.settle(ready.task.number, told);
        Ok(())
    }

    // The same where the call has moved the task to the line: its record is put in place once the deed is done.
    #[inline(always)]
    pub(crate) fn do_line(&mut self, ready: ReadyTask) -> Result<(), Refusal>
        requires { ready.task.number ≤ length (records_of self.old.records) }
        ensures { CarriesOut M.Memory Q.Queue (ready_line ready) self.old (said result) self.new }
    {
        let told = ready.task.do_deed(&mut self.memory, &mut self.queue)?;
        self.records.put(ready.task);
        self.records.settle(ready.task.number, told);
        Ok(())
    }

    // Does the first line of an attempt, 16 for a reader and 0.1 for a writer. Refused: 10, 20, 21, 22.
    pub fn begin(&mut self, task: u32) -> Result<(), Refusal>
        ensures { Does M.Memory Q.Queue (begin task) self.old (said result) self.new }
    {
        let ready = self.find(task)?.ready_to_begin()?;
        self.do_line(ready)
    }

    // Does the next line of a task. Refused: 10, 20, 23.
    pub fn advance(&mut self, task: u32) -> Result<(), Refusal>
        ensures { Does M.Memory Q.Queue (advance task) self.old (said result) self.new }
    {
        let ready = self.find(task)?.ready_to_advance()?;
        self.do_next(ready)
    }
}
