// What one line does, and what it finds.
ghost use Rattle.std.specs.Prelude.{◌≡◌};
ghost use Rattle.lines.specs.Found.{number_found};

use memory::operation::Operation;

// The one deed of a line: an operation on a cell, one on the queue, or nothing outside the task.
#[derive(Clone, Copy, PartialEq, Eq, Debug)]
pub enum Deed {
    Touch(Operation),
    Join,
    First,
    Quit,
    Nothing,
}

// What a deed finds: a cell's number, the answer to a question, or nothing.
#[derive(Clone, Copy, PartialEq, Eq, Debug)]
pub enum Found {
    Nothing,
    Number(u32),
    Answer(bool),
}

impl Found {
    // The number, and 0 where none was found (so it is no conversion).
    #[inline(always)]
    pub(crate) fn number(self) -> u32
        ensures { result ≡ number_found self }
    {
        match self {
            Found::Number(number) => number,
            Found::Nothing | Found::Answer(_) => 0,
        }
    }
}
