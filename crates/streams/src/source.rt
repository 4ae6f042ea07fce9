// What gives bytes.
ghost use Rattle.std.specs.Prelude.{ℕ, List, Option};
ghost use Rattle.std.specs.Io.{ReadsAtMost};
ghost use Rattle.std.specs.Io.KnownBytes.{ReadConsumes};

/// What gives bytes. Its error is of no known kind, so that code over any source has only the errors that a source gave it.
pub trait Source {
    /// Why no bytes are given.
    type Error;

    // the bytes that it has yet to give, where they are known
    ghost remaining: { Self → Option (List ℕ) };

    /// Puts the next bytes at the front of the room, and tells how many: none only at the end, or where there is no room.
    /// Where it fails it gave none.
    fn read_some(&mut self, room: &mut [u8]) -> Result<usize, Self::Error>
        ensures bound { ReadsAtMost result room.new }
        ensures bytes { ReadConsumes (remaining self.old) (remaining self.new) result room.new };
}
