// For each waiting task the set of those that wait before it.
//
// The oldest is the one with nobody before it. Who joins has all that wait before
// it, and who quits is taken out of every set, so that no place ever moves.
ghost use Rattle.std.specs.Prelude.{◌≡◌, [], length};
ghost use Rattle.queue.specs.Waiting.{waits, can_join};
ghost use Rattle.masks.specs.Sets.{Kept, waiting_of};

use crate::strike::strike;
use queue::interface::known;
use queue::order::Order;
use sets::tasks::{contains, count, with_task, without_task};

#[derive(Clone, Copy)]
pub struct Masks {
    // at place t - 1 the set of those before the task t, where t waits: one for each task is what this queue is
    before: [u64; 64],
    // the set of those that wait
    who: u64,
    ghost places: { length before ≡ 64 },
    // the sets are those of a list of tasks in which none waits twice
    ghost kept: { Kept before who (waiting_of before who) },
}

impl Masks {
    // The queue in which nobody waits.
    pub fn new() -> Masks
        ensures { waiting_of result.before result.who ≡ [] }
    {
        Masks {
            before: [0; 64],
            who: 0,
        }
    }

    // Whether the task waits.
    fn is_waiting(&self, task: u32) -> bool
        ensures { result ≡ waits (waiting_of self.now.before self.now.who) task }
    {
        contains(self.who, task)
    }

    // Whether the task can join.
    fn can_join(&self, task: u32) -> bool
        ensures { result ≡ can_join (waiting_of self.now.before self.now.who) task }
    {
        known(task).is_ok() && !self.is_waiting(task)
    }
}

impl Order for Masks {
    ghost tasks = { λ s. waiting_of s.before s.who };

    fn is_oldest(&self, task: u32) -> bool {
        contains(self.who, task) && self.before[task as usize - 1] == 0
    }

    fn append(&mut self, task: u32) -> bool {
        if !self.can_join(task) {
            return false;
        }
        self.before[task as usize - 1] = self.who;
        self.who = with_task(self.who, task);
        true
    }

    fn remove(&mut self, task: u32) -> bool {
        if !self.is_oldest(task) {
            return false;
        }
        strike(&mut self.before, task);
        self.who = without_task(self.who, task);
        true
    }

    fn held(&self) -> u32 {
        count(self.who)
    }
}
