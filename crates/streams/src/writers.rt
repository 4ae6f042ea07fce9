// Each writer of std takes bytes.
ghost use Rattle.std.specs.Prelude.{◌≢◌, IfErr};
ghost use Rattle.std.specs.Io.KnownBytes.{WriteAppends};
ghost use Rattle.std.specs.IoError.{error_kind};
ghost use Rattle.streams.specs.Streams.{TakesSome};

use crate::sink::Sink;
use std::io;
use std::io::{ErrorKind, Write};

impl<W: Write> Sink for W {
    type Error = io::Error;

    ghost contents = { W.Write.contents };

    // A write that a signal interrupts is tried again. A writer that takes none of some bytes has failed.
    // (It is tried as often as a number of 64 bits counts.)
    fn write_some(&mut self, bytes: &[u8]) -> io::Result<usize>
        ensures count { TakesSome result bytes.now }
        ensures bytes { WriteAppends (W.Write.contents self.old) (W.Write.contents self.new) result bytes.now }
        ensures retried { IfErr result (λ e. error_kind e ≢ ErrorKind.Interrupted) }
    {
        for _ in 0..u64::MAX {
            match self.write(bytes) {
                Ok(0) if !bytes.is_empty() => return Err(io::Error::from(ErrorKind::WriteZero)),
                Ok(count) => return Ok(count),
                Err(why) if why.kind() == ErrorKind::Interrupted => (),
                Err(why) => return Err(why),
            }
        }
        Err(io::Error::from(ErrorKind::TimedOut))
    }
}
