// Why a queue refuses a call, in the order in which the questions are asked.
ghost use Rattle.std.specs.Prelude.{◌≡◌};
ghost use Rattle.queue.specs.Refusals.{refusal_number};

#[derive(Clone, Copy, PartialEq, Eq, Debug)]
pub enum Refusal {
    // has the task a number from 1 to 64?
    Task = 1,
    // to join: is the task not yet waiting?
    Waiting = 5,
    // to quit: is the task the oldest?
    NotOldest = 6,
}

impl Refusal {
    // The published number of the refusal: a cast of its own enum, which no generic function can make.
    pub fn number(self) -> u32
        ensures { result ≡ refusal_number self }
    {
        self as u32
    }
}
