// Why a line of a listing is not written.
ghost use Rattle.std.specs.Prelude.{◌≡◌};
ghost use Rattle.listing.specs.Refusals.{refusal_number};

/// Why nothing was written into a buffer.
#[derive(Clone, Copy, PartialEq, Eq, Debug)]
pub enum Refusal {
    /// Has the buffer room for the line?
    Room = 39,
}

impl Refusal {
    /// The published number of the refusal. (A cast of its own enum, which no generic function can make.)
    pub fn number(self) -> u32
        ensures { result ≡ refusal_number self }
    {
        self as u32
    }
}
