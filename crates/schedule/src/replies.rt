// What a line of a schedule comes to.
ghost use Rattle.std.specs.Prelude.{◌≡◌, false, length};
ghost use Rattle.script.specs.Calls.{parse};
ghost use Rattle.schedule.specs.Replies.{IsWithin, Obeyed, heard, heard_so};

use crate::refusal::Refusal;
use crate::serving::Serve;
use listing::answer::Answer;
use script::call::Line;
use script::parse::parse_line;

// Nothing, for a blank line; the text of a note, as a part of the schedule; or what is answered.
#[derive(Clone, Copy)]
pub(crate) enum Reply<'s> {
    Nothing,
    Note(&'s [u8]),
    Answered(Answer),
}

// Does what the line says, and tells what it comes to. Refused: what the line refuses (40, 41, 42), and what the call does.
#[inline(always)]
fn obey<'s, V: Serve>(server: &mut V, text: &'s [u8]) -> Result<Reply<'s>, Refusal>
    requires { V.done server.old ≡ false }
    ensures obeys { Obeyed V.serves server.old (parse text.now) (heard_so result) server.new }
    ensures within { IsWithin (length text.now) (heard_so result) }
{
    match parse_line(text)? {
        Line::Blank => Ok(Reply::Nothing),
        Line::Note(note) => Ok(Reply::Note(note)),
        Line::Call(call) => Ok(Reply::Answered(server.answer(call)?)),
    }
}

// The same, for a listing: there a refusal is one more answer.
#[inline(always)]
pub(crate) fn obey_line<'s, V: Serve>(server: &mut V, text: &'s [u8]) -> Reply<'s>
    requires { V.done server.old ≡ false }
    ensures obeys { Obeyed V.serves server.old (parse text.now) (heard result) server.new }
    ensures within { IsWithin (length text.now) (heard result) }
{
    match obey(server, text) {
        Ok(reply) => reply,
        Err(why) => Reply::Answered(Answer::Refused(why.number())),
    }
}
