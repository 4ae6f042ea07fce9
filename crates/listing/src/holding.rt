// Lines that an output holds.
ghost use Rattle.std.specs.Prelude.{◌≡◌, ◌+◌, ◌≤◌, [], false, true, length, IsErr, IsOk};
ghost use Rattle.listing.specs.Listing.{noted, shown};
ghost use Rattle.listing.specs.Outputs.{Holds, full, held};

use crate::answer::Answer;
use crate::output::{FULL, Output, SIZE};
use crate::refusal::Refusal;
use crate::write::{put_line, put_note};

impl<S> Output<S> {
    /// To this sink. No byte is held.
    pub fn new(sink: S) -> Output<S>
        ensures sink { result.sink ≡ sink }
        ensures empty { held result ≡ [] }
        ensures room { full result ≡ false }
    {
        Output {
            sink,
            bytes: [0; SIZE],
            count: 0,
        }
    }

    /// Whether there may be too little room for the next line, so that it is time to flush.
    #[inline(always)]
    pub fn is_full(&self) -> bool
        ensures { result ≡ full self.now }
    {
        self.count > FULL
    }

    /// The line `number` of the listing, for a call that gave `answer`, is held behind the others. Refused: 39, where it is
    /// full; nothing changes then.
    #[inline(always)]
    pub fn hold_answer(&mut self, number: u32, answer: Answer) -> Result<(), Refusal>
        ensures holds { Holds (shown number answer) self.old result self.new }
        ensures fits { full self.old ≡ false → IsOk result }
        ensures full { full self.old ≡ true → IsErr result }
    {
        let at = self.count;
        if at > FULL {
            return Err(Refusal::Room);
        }
        self.count = at + put_line(&mut self.bytes[at..], number, answer);
        Ok(())
    }

    /// The same for a note. Refused: 39, where it is full, or has no room for so long a note.
    #[inline(always)]
    pub fn hold_note(&mut self, number: u32, text: &[u8]) -> Result<(), Refusal>
        ensures holds { Holds (noted number text.now) self.old result self.new }
        ensures fits { full self.old ≡ false → self.old.count + length (noted number text.now) ≤ 4096 → IsOk result }
        ensures full { full self.old ≡ true → IsErr result }
    {
        let at = self.count;
        if at > FULL {
            return Err(Refusal::Room);
        }
        self.count = at + put_note(&mut self.bytes[at..], number, text)?;
        Ok(())
    }

    /// What it writes to. What is held is lost.
    pub fn into_sink(self) -> S
        ensures { result ≡ self.sink }
    {
        self.sink
    }
}
