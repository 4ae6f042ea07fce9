// What a call of a schedule answers, as far as a listing tells it, and in which text.
// A number of 32 bits has at most ten digits, so no text has more than 35 bytes.
ghost use Rattle.std.specs.Prelude.{◌+◌, ◌≤◌, ◌++◌, decimal, length};
ghost use Rattle.listing.specs.Answers.{ok, place as placed, space, thickness, told};
ghost use Rattle.listing.specs.declared.answer.Answer.TheVariants as answers;
ghost use Rattle.listing.specs.Written.{Takes};

use crate::digits::{put_byte, put_number, put_rare, put_text};

// Where a task is.
#[derive(Clone, Copy, PartialEq, Eq, Debug)]
pub enum Place {
    Rest,
    // inside, with the reading or the writing right
    Reading,
    Writing,
    // at a line, by ten times its number: any number may be shown, so no enum of lines
    At(u32),
}

impl Place {
    // Written behind the `at` bytes that `out` has taken; tells how many it has taken then.
    #[inline(always)]
    fn put(self, out: &mut [u8], at: usize) -> usize
        requires { at + 10 ≤ length out.old }
        ensures written { Takes at out.old (placed self) result out.new }
        ensures short { length (placed self) ≤ 10 }
    {
        match self {
            Place::Rest => put_byte(out, at, b'-'),
            Place::Reading => put_byte(out, at, b'r'),
            Place::Writing => put_byte(out, at, b'w'),
            Place::At(line) => put_number(out, at, line),
        }
    }
}

// A thickness, or "absent", written in the same way.
#[inline(always)]
fn put_thickness(out: &mut [u8], at: usize, row: Option<u32>) -> usize
    requires { at + 10 ≤ length out.old }
    ensures written { Takes at out.old (thickness row) result out.new }
    ensures short { length (thickness row) ≤ 10 }
{
    match row {
        Some(number) => put_rare(out, at, number),
        None => put_text(out, at, b"absent"),
    }
}

// What both answers with a place begin with, behind a space.
#[inline(always)]
fn put_moved(out: &mut [u8], at: usize, place: Place, cost: u32) -> usize
    requires { at + 25 ≤ length out.old }
    ensures written { Takes at out.old (space ++ (ok ++ placed place ++ space ++ decimal cost)) result out.new }
    ensures short { length (ok ++ placed place ++ space ++ decimal cost) ≤ 24 }
{
    let at = put_text(out, at, b" ok ");
    let at = place.put(out, at);
    let at = put_byte(out, at, b' ');
    put_number(out, at, cost)
}

// An answer with a thickness, behind a space: out of line, since most have none.
#[cold]
fn put_row(out: &mut [u8], at: usize, place: Place, cost: u32, row: Option<u32>) -> usize
    requires { at + 36 ≤ length out.old }
    ensures written { Takes at out.old (space ++ told (answers.Row place cost row)) result out.new }
    ensures short { length (told (answers.Row place cost row)) ≤ 35 }
{
    let at = put_moved(out, at, place, cost);
    let at = put_byte(out, at, b' ');
    put_thickness(out, at, row)
}

#[derive(Clone, Copy, PartialEq, Eq, Debug)]
pub enum Answer {
    // a lock for so many tasks
    Opened(u32),
    // the place of the task and its cost
    Moved(Place, u32),
    // the same, and a row's thickness, or nothing where nobody has measured the rib
    Row(Place, u32, Option<u32>),
    // the number of the refusal, of whichever layer: any may be shown, so no enum
    Refused(u32),
}

impl Answer {
    // A space and the text, written in the same way.
    #[inline(always)]
    pub(crate) fn put(self, out: &mut [u8], at: usize) -> usize
        requires { at + 36 ≤ length out.old }
        ensures written { Takes at out.old (space ++ told self) result out.new }
        ensures short { length (told self) ≤ 35 }
    {
        match self {
            Answer::Opened(tasks) => {
                let at = put_text(out, at, b" ok ");
                put_rare(out, at, tasks)
            }
            Answer::Moved(place, cost) => put_moved(out, at, place, cost),
            Answer::Row(place, cost, row) => put_row(out, at, place, cost, row),
            Answer::Refused(why) => {
                let at = put_text(out, at, b" no ");
                put_rare(out, at, why)
            }
        }
    }
}
