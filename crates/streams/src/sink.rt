// What takes bytes.
ghost use Rattle.std.specs.Prelude.{ℕ, List, Option};
ghost use Rattle.std.specs.Io.KnownBytes.{WriteAppends};
ghost use Rattle.streams.specs.Streams.{TakesSome};

/// What takes bytes. Its error is of no known kind, so that code over any sink has only the errors that a sink gave it.
pub trait Sink {
    /// Why bytes are not taken.
    type Error;

    // the bytes that it has taken, where they are known
    ghost contents: { Self → Option (List ℕ) };

    /// Takes the first of the bytes, at least one where there is one, and tells how many. Where it fails it took none.
    fn write_some(&mut self, bytes: &[u8]) -> Result<usize, Self::Error>
        ensures count { TakesSome result bytes.now }
        ensures bytes { WriteAppends (contents self.old) (contents self.new) result bytes.now };
}
