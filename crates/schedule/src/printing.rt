// The listing of a schedule, appended to an output.
ghost use Rattle.std.specs.Prelude.{◌≡◌, ◌≤◌, ◌⊎◌, [], true, None, length, OnErr, OnOk};
ghost use Rattle.listing.specs.Outputs.{Appended, held};
ghost use Rattle.script.specs.Reading.{to_come};
ghost use Rattle.schedule.specs.Lists.{IsOver, ListsInto, ListsOnInto, Prints};
ghost use Rattle.schedule.specs.Progress.{SameDesk, progress, untold_bytes, whole_told};

use crate::replies::{Reply, obey_line};
use crate::schedule::Schedule;
use crate::serving::Serve;
use listing::answer::Answer;
use listing::output::Output;
use script::call::{MemoryKind, QueueKind};
use script::reader::Reader;
use streams::sink::Sink;

// Does lines until none is left or another answers, and appends their lines of the listing. (Not inlined: one function for
// each lock, which the compiler can survey.)
#[inline(never)]
fn list_lines<V: Serve, S: Sink>(
    reader: &mut Reader<'_>,
    server: &mut V,
    out: &mut Output<S>,
) -> Result<(), S::Error>
    requires { length reader.old.input.now ≤ 65536 }
    ensures lists { ListsInto S.contents V.serves server.old reader.old out.old result server.new reader.new out.new }
    ensures over { OnOk result ((V.done server.new ≡ true) ⊎ (to_come reader.new ≡ [])) }
    ensures input { reader.new.input.now ≡ reader.old.input.now }
{
    while !server.is_done() {
        let Some(text) = reader.next_line() else {
            return Ok(());
        };
        let number = reader.number() as u32;
        let answer = match obey_line(server, text) {
            Reply::Nothing => continue,
            Reply::Note(note) => {
                if out.hold_note(number, note).is_err() {
                    out.put_note(number, note)?;
                }
                continue;
            }
            Reply::Answered(answer) => answer,
        };
        if out.is_full() {
            out.flush()?;
        }
        out.hold_answer(number, answer).unwrap();
    }
    Ok(())
}

impl Schedule<'_, '_, '_> {
    // Tells why the whole input is refused, where that is to be told.
    fn tell_whole<S: Sink>(&mut self, out: &mut Output<S>) -> Result<(), S::Error>
        ensures appended { Appended S.contents (untold_bytes self.old.untold) out.old result out.new }
        ensures lost { OnErr result (held out.new ≡ []) }
        ensures reached { progress self.new ≡ whole_told (progress self.old) }
        ensures same { SameDesk self.old self.new }
    {
        let Some(why) = self.untold.take() else {
            return Ok(());
        };
        out.put_answer(0, Answer::Refused(why.number()))
    }

    // Does lines until none is left or a lock is chosen.
    fn list_unchosen<S: Sink>(&mut self, out: &mut Output<S>) -> Result<(), S::Error>
        requires { self.old.untold ≡ None }
        ensures lists { ListsOnInto S.contents (progress self.old) out.old result (progress self.new) out.new }
        ensures over { OnOk result (IsOver self.new) }
        ensures same { SameDesk self.old self.new }
    {
        list_lines(&mut self.reader, &mut self.desk.locks, out)
    }

    // Once a lock is chosen, does all lines that are left.
    fn list_chosen<S: Sink>(&mut self, out: &mut Output<S>) -> Result<(), S::Error>
        requires told { self.old.untold ≡ None }
        requires over { IsOver self.old }
        ensures lists { ListsOnInto S.contents (progress self.old) out.old result (progress self.new) out.new }
        ensures over { OnOk result (to_come self.new.reader ≡ []) }
        ensures same { SameDesk self.old self.new }
    {
        let reader = &mut self.reader;
        let locks = &mut self.desk.locks;
        let Some(pair) = locks.chosen else {
            return Ok(());
        };
        match (pair.memory, pair.queue) {
            (MemoryKind::Words, QueueKind::Ring) => list_lines(reader, &mut locks.words_ring, out),
            (MemoryKind::Words, QueueKind::Masks) => list_lines(
                reader,
                &mut locks.words_masks,
                out,
            ),
            (MemoryKind::Packed, QueueKind::Ring) => list_lines(
                reader,
                &mut locks.packed_ring,
                out,
            ),
            (MemoryKind::Packed, QueueKind::Masks) => list_lines(
                reader,
                &mut locks.packed_masks,
                out,
            ),
        }
    }

    /// Does all lines that are left, and writes what the output holds and then all that is left of the listing; where a write
    /// fails a front of these bytes is written, no byte of a line that is not done, and the error is the sink's. Afterwards
    /// the output holds nothing, whatever comes of it.
    pub fn print<S: Sink>(&mut self, out: &mut Output<S>) -> Result<(), S::Error>
        ensures prints { Prints S.contents self.old out.old result self.new out.new }
        ensures same { SameDesk self.old self.new }
    {
        self.tell_whole(out)?;
        self.list_unchosen(out)?;
        self.list_chosen(out)?;
        out.flush()
    }
}
