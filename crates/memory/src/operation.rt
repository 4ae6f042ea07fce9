// The four operations of a task on a cell, and what an obeyed one gives.
ghost use Rattle.std.specs.Prelude.{◌≡◌};
ghost use Rattle.memory.specs.Operations.{step_taken};

// The way in which an add goes, by 1.
#[derive(Clone, Copy, PartialEq, Eq, Debug)]
pub enum Step {
    Up,
    Down,
}

impl Step {
    // The number one up or one down, where that stays from 0 to the limit.
    pub(crate) fn taken(self, number: u32, limit: u32) -> Option<u32>
        ensures { result ≡ step_taken limit self number }
    {
        match self {
            Step::Up if number < limit => Some(number + 1),
            Step::Down if number > 0 => Some(number - 1),
            _ => None,
        }
    }
}

// An operation by its cell and its numbers.
#[derive(Clone, Copy, PartialEq, Eq, Debug)]
pub enum Operation {
    Read(u32),
    Write(u32, u32),
    Add(u32, Step),
    // cell, expected number, new number
    Swap(u32, u32, u32),
}

// What an obeyed operation gives, with its share of the cost.
#[derive(Clone, Copy, PartialEq, Eq, Debug)]
pub struct Reply<T> {
    pub value: T,
    pub share: u32,
}
