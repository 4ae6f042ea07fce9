// Running a schedule line by line. Each line of the listing is written at the start of a lent buffer.
ghost use Rattle.std.specs.Prelude.{◌≡◌, ◌≤◌, length};
ghost use Rattle.listing.specs.Written.{TookBytes};
ghost use Rattle.schedule.specs.Desks.{board};
ghost use Rattle.schedule.specs.Listing.{reply_bytes};
ghost use Rattle.schedule.specs.Progress.{Gives, SameDesk, begun, progress};
ghost use Rattle.schedule.specs.Replies.{IsWithin, heard};

use crate::desk::Desk;
use crate::refusal::Refusal;
use crate::replies::{Reply, obey_line};
use crate::schedule::Schedule;
use listing::answer::Answer;
use listing::write::{put_answer, put_note};
use script::lines::fits;
use script::reader::Reader;

/// The room that a line of a listing may need: the number of a line, a note of a whole schedule, and what stands between.
pub const ROOM: usize = 65552;

// Writes the line `number` of the listing at the start of `out`, and tells how many bytes it has.
fn put_reply(out: &mut [u8], number: u32, reply: Reply<'_>) -> usize
    requires room { 65552 ≤ length out.old }
    requires within { IsWithin 65536 (heard reply) }
    ensures { TookBytes out.old (reply_bytes number (heard reply.entry)) result out.new }
{
    match reply {
        Reply::Nothing => 0,
        Reply::Note(text) => put_note(out, number, text).unwrap(),
        Reply::Answered(answer) => put_answer(out, number, answer).unwrap(),
    }
}

impl<'s, 'b, 'a> Schedule<'s, 'b, 'a> {
    /// The schedule with this text, its calls made at this desk.
    pub fn new(input: &'s [u8], desk: &'b mut Desk<'a>) -> Schedule<'s, 'b, 'a>
        ensures begun { progress result ≡ begun input.now (board desk.old.locks) }
        ensures desk { result.desk.ghost_name ≡ desk.entry.ghost_name }
        ensures tables { result.desk.now ≡ desk.old }
    {
        match fits(input) {
            Ok(()) => Schedule {
                reader: Reader::new(input),
                untold: None,
                desk,
            },
            Err(why) => Schedule {
                reader: Reader::new(&[]),
                untold: Some(why),
                desk,
            },
        }
    }

    /// Does the next line, and tells how many bytes of `out` are now its line of the listing; nothing at the end. An input that
    /// is too long gives one line, which tells 43. Refused: 39, where `out` has fewer than 65,552 bytes, and then all is as it
    /// was.
    pub fn line_bytes(&mut self, out: &mut [u8]) -> Result<Option<usize>, Refusal>
        ensures gives { Gives self.old out.old result self.new out.new }
        ensures same { SameDesk self.old self.new }
    {
        if out.len() < ROOM {
            return Err(Refusal::Listing(listing::refusal::Refusal::Room));
        }
        if let Some(why) = self.untold.take() {
            let answer = Answer::Refused(why.number());
            return Ok(Some(put_reply(out, 0, Reply::Answered(answer))));
        }
        let Some(text) = self.reader.next_line() else {
            return Ok(None);
        };
        let number = self.reader.number() as u32;
        Ok(Some(put_reply(out, number, obey_line(&mut *self.desk, text))))
    }
}
