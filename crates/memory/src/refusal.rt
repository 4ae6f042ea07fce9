// Why a memory refuses a call, in the order in which the questions are asked.
ghost use Rattle.std.specs.Prelude.{◌≡◌};
ghost use Rattle.memory.specs.Refusals.{refusal_number};

#[derive(Clone, Copy, PartialEq, Eq, Debug)]
pub enum Refusal {
    // has the task a number from 1 to 64?
    Task = 1,
    // is there a cell of that number, 0 to 6?
    Cell = 2,
    // is no number for the cell above the limit?
    Number = 3,
    // does the step lead to a number from 0 to the limit?
    Sum = 4,
}

impl Refusal {
    // The published number of the refusal: a cast of its own enum, which no generic function can make.
    pub fn number(self) -> u32
        ensures { result ≡ refusal_number self }
    {
        self as u32
    }
}
