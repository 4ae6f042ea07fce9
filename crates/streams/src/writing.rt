// Writing bytes to whatever takes them.
ghost use Rattle.streams.specs.Streams.{Writes};

use crate::sink::Sink;

/// Writes all the bytes. Where that fails a front of them is written, and no other byte; the error is the sink's.
pub fn write_all<S: Sink>(sink: &mut S, bytes: &[u8]) -> Result<(), S::Error>
    ensures { Writes bytes.now (S.contents sink.old) (S.contents sink.new) result }
{
    let mut at = 0;
    while at < bytes.len() {
        at += sink.write_some(&bytes[at..])?;
    }
    Ok(())
}
