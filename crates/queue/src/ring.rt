// The waiting tasks in order of arrival, in a ring of 64 places.
//
// The list is read off the places from `start` on, `count` of them, and goes on
// at place 0 behind place 63. No task waits twice, so that 64 places suffice
// and `join` never finds the ring full.
ghost use Rattle.std.specs.Prelude.{◌≡◌, ◌<◌, ◌≤◌, true, [], length};
ghost use Rattle.queue.specs.Waiting.{waits, can_join, lawful};
ghost use Rattle.queue.specs.Round.{round};

use crate::interface::known;
use crate::order::Order;

#[derive(Clone, Copy)]
pub struct Ring {
    // an array with a start and a count: a ring is what this queue is, by value and not on the heap
    numbers: [u32; 64],
    // the place of the oldest
    start: usize,
    // how many wait
    count: usize,
    ghost places: { length numbers ≡ 64 },
    ghost inside: { start < 64 },
    ghost fits: { count ≤ 64 },
    // each is a task, and none waits twice
    ghost distinct: { lawful (round numbers start count) ≡ true },
}

impl Ring {
    // The queue in which nobody waits.
    pub fn new() -> Ring
        ensures { round result.numbers result.start result.count ≡ [] }
    {
        Ring {
            numbers: [0; 64],
            start: 0,
            count: 0,
        }
    }

    // Whether the task waits.
    fn is_waiting(&self, task: u32) -> bool
        ensures { result ≡ waits (round self.now.numbers self.now.start self.now.count) task }
    {
        (0..self.count).any(|k| self.numbers[(self.start + k) % 64] == task)
    }

    // Whether the task can join.
    fn can_join(&self, task: u32) -> bool
        ensures { result ≡ can_join (round self.now.numbers self.now.start self.now.count) task }
    {
        known(task).is_ok() && !self.is_waiting(task)
    }
}

impl Order for Ring {
    ghost tasks = { λ s. round s.numbers s.start s.count };

    fn is_oldest(&self, task: u32) -> bool {
        self.count > 0 && self.numbers[self.start] == task
    }

    fn append(&mut self, task: u32) -> bool {
        if !self.can_join(task) {
            return false;
        }
        self.numbers[(self.start + self.count) % 64] = task;
        self.count += 1;
        true
    }

    fn remove(&mut self, task: u32) -> bool {
        if !self.is_oldest(task) {
            return false;
        }
        self.start = (self.start + 1) % 64;
        self.count -= 1;
        true
    }

    fn held(&self) -> u32 {
        self.count as u32
    }
}
