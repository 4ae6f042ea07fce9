// Appending lines to an output, and writing what it holds. (A result with a sink's error is large. Where one is made for a
// line it costs as much as a third of writing the line, so a loop may hold lines, and flush once it is full.)
ghost use Rattle.std.specs.Prelude.{◌≡◌, ◌≤◌, [], false, OnErr, OnOk};
ghost use Rattle.streams.specs.Streams.{Writes};
ghost use Rattle.listing.specs.Listing.{noted, shown};
ghost use Rattle.listing.specs.Outputs.{Appended, full, held};

use crate::answer::Answer;
use crate::output::Output;
use crate::write::put_heading;
use streams::sink::Sink;
use streams::writing::write_all;

impl<S: Sink> Output<S> {
    /// Writes all that is held. No byte is held then, whatever comes of it. The error is the sink's.
    #[cold]
    #[inline(never)]
    pub fn flush(&mut self) -> Result<(), S::Error>
        ensures written { Writes (held self.old) (S.contents self.old.sink) (S.contents self.new.sink) result }
        ensures empty { held self.new ≡ [] }
        ensures room { full self.new ≡ false }
    {
        let count = self.count;
        self.count = 0;
        write_all(&mut self.sink, &self.bytes[..count])
    }

    // Writes what is held where it is full.
    #[inline(always)]
    fn make_room(&mut self) -> Result<(), S::Error>
        ensures appended { Appended S.contents [] self.old result self.new }
        ensures lost { OnErr result (held self.new ≡ []) }
        ensures room { OnOk result (full self.new ≡ false) }
    {
        if self.is_full() {
            return self.flush();
        }
        Ok(())
    }

    // Writes what is held, what the line of the note begins with, and the note. The end of its line is held.
    #[cold]
    fn write_note(&mut self, number: u32, text: &[u8]) -> Result<(), S::Error>
        requires { full self.old ≡ false }
        ensures appended { Appended S.contents (noted number text.now) self.old result self.new }
        ensures lost { OnErr result (held self.new ≡ []) }
    {
        self.count += put_heading(&mut self.bytes[self.count..], number).unwrap();
        self.flush()?;
        write_all(&mut self.sink, text)?;
        self.bytes[0] = b'\n';
        self.count = 1;
        Ok(())
    }

    /// Appends the line `number` of the listing, for a note. The error is the sink's.
    #[inline(never)]
    pub fn put_note(&mut self, number: u32, text: &[u8]) -> Result<(), S::Error>
        ensures appended { Appended S.contents (noted number text.now) self.old result self.new }
        ensures lost { OnErr result (held self.new ≡ []) }
    {
        self.make_room()?;
        match self.hold_note(number, text) {
            Ok(()) => Ok(()),
            Err(_) => self.write_note(number, text),
        }
    }

    /// Appends the line `number` of the listing, for a call that gave `answer`. The error is the sink's.
    pub fn put_answer(&mut self, number: u32, answer: Answer) -> Result<(), S::Error>
        ensures appended { Appended S.contents (shown number answer) self.old result self.new }
        ensures lost { OnErr result (held self.new ≡ []) }
    {
        self.make_room()?;
        self.hold_answer(number, answer).unwrap();
        Ok(())
    }
}
