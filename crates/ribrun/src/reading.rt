// Reading an input in pieces. (What a source is to fill has to be cleared first; a piece is cleared but once.)
ghost use Rattle.ribrun.specs.Reading.{Reads};

use streams::sink::Sink;
use streams::source::Source;
use streams::writing::write_all;

// How many bytes are read at a time.
const PIECE: usize = 4096;

// Reads an input to its end, or until there are more than 65,536 bytes of it, which is too long for a schedule whatever
// follows: its listing is that of the whole input. What was read is put into `out`; tells how many bytes that is.
// Any error is one of the source's or of what takes the bytes.
pub fn read_input<S: Source, K: Sink<Error = S::Error>>(
    source: &mut S,
    out: &mut K,
) -> Result<usize, S::Error>
    ensures { Reads (S.remaining source.old) (S.remaining source.new) (K.contents out.old) (K.contents out.new) result }
{
    let mut piece = [0; PIECE];
    let mut taken = 0;
    while taken <= 65536 {
        let count = source.read_some(&mut piece)?;
        if count == 0 {
            return Ok(taken);
        }
        write_all(out, &piece[..count])?;
        taken += count;
    }
    Ok(taken)
}
