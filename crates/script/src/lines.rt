// Reading a schedule line by line. A line ends in byte 10, which the last one
// may lack; it is handed out as a part of the input, without that byte.
ghost use Rattle.std.specs.Prelude.{◌≡◌};
ghost use Rattle.script.specs.Cuts.{lines as parted};
ghost use Rattle.script.specs.Reading.{fitting, to_come, Handed};

use crate::reader::Reader;
use crate::refusal::Refusal;
use crate::text::line_at;

// Asks of the whole input whether it has at most 65,536 bytes. Refused: 43.
pub fn fits(input: &[u8]) -> Result<(), Refusal>
    ensures { result ≡ fitting input.now }
{
    if input.len() > 65536 {
        return Err(Refusal::Length);
    }
    Ok(())
}

impl<'a> Reader<'a> {
    pub fn new(input: &'a [u8]) -> Reader<'a>
        ensures lines { to_come result ≡ parted input.now }
        ensures number { result.number ≡ 0 }
        ensures input { result.input.now ≡ input.now }
    {
        Reader {
            input,
            at: 0,
            number: 0,
        }
    }

    // The next line, or nothing at the end of the input.
    pub fn next_line(&mut self) -> Option<&'a [u8]>
        ensures { Handed self.old result self.new }
    {
        let (line, next) = line_at(self.input, self.at)?;
        self.at = next;
        self.number += 1;
        Some(line)
    }
}
