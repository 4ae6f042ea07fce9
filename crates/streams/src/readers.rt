// Each reader of std gives bytes.
ghost use Rattle.std.specs.Prelude.{◌≢◌, IfErr};
ghost use Rattle.std.specs.Io.{ReadsAtMost};
ghost use Rattle.std.specs.Io.KnownBytes.{ReadConsumes};
ghost use Rattle.std.specs.IoError.{error_kind};

use crate::source::Source;
use std::io;
use std::io::{ErrorKind, Read};

impl<R: Read> Source for R {
    type Error = io::Error;

    ghost remaining = { R.Read.remaining };

    // A read that a signal interrupts is tried again.
    // (It is tried as often as a number of 64 bits counts.)
    fn read_some(&mut self, room: &mut [u8]) -> io::Result<usize>
        ensures bound { ReadsAtMost result room.new }
        ensures bytes { ReadConsumes (R.Read.remaining self.old) (R.Read.remaining self.new) result room.new }
        ensures retried { IfErr result (λ e. error_kind e ≢ ErrorKind.Interrupted) }
    {
        for _ in 0..u64::MAX {
            match self.read(room) {
                Ok(count) => return Ok(count),
                Err(why) if why.kind() == ErrorKind::Interrupted => (),
                Err(why) => return Err(why),
            }
        }
        Err(io::Error::from(ErrorKind::TimedOut))
    }
}
