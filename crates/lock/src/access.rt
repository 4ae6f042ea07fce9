// A task's record read and replaced.
ghost use Rattle.std.specs.Prelude.{◌≡◌, ◌-◌, ◌≤◌, length, slice_set};
ghost use Rattle.lock.specs.Tasks.{Among};
ghost use Rattle.lock.specs.View.{records_of};

use crate::records::Records;
use crate::task::Task;
use calls::record::Record;

impl Records {
    // How many tasks there are.
    #[inline(always)]
    pub(crate) fn count(&self) -> u32
        ensures { result ≡ length (records_of self.now) }
    {
        self.count
    }

    // All of them, that of task 1 first.
    pub(crate) fn tasks(&self) -> &[Record]
        ensures is { result.now ≡ records_of self.now }
        ensures few { length result.now ≤ 64 }
    {
        &self.all[0..self.count as usize]
    }

    // The task with this number, if there is one.
    #[inline(always)]
    pub(crate) fn get(&self, number: u32) -> Option<Task>
        ensures { Among (records_of self.now) number result }
    {
        if number < 1 || number > self.count {
            return None;
        }
        Some(Task {
            number,
            state: self.all[number as usize - 1],
        })
    }

    // The task's record is this from now on.
    #[inline(always)]
    #[tactic(auto, using(crate::proofs::Kept::first_set))]
    pub(crate) fn put(&mut self, task: Task)
        ensures is { records_of self.new ≡ slice_set (records_of self.old) (task.number - 1) task.state }
        ensures count { length (records_of self.new) ≡ length (records_of self.old) }
    {
        self.all[task.number as usize - 1] = task.state;
    }
}
