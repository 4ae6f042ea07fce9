// What one line says. The byte at its front alone decides whether the letter is
// known; then the fields are judged, all of them before the size of any number.
ghost use Rattle.std.specs.Prelude.{◌≡◌};
ghost use Rattle.script.specs.Calls.{opening as opening_of, over, called, put, read, arguments, parse, ask, said, opened, task_ask, Whole};
ghost use Rattle.script.specs.Fields.{left};
ghost use Rattle.script.specs.Numbers.{three, two};

use crate::call::{Call, Line, MemoryKind, QueueKind};
use crate::fields::Fields;
use crate::numbers::{one_number, three_numbers, two_numbers};
use crate::refusal::Refusal;

// The fields after the letter at the front: none where no space follows it.
#[inline(always)]
fn arguments_of<'a>(text: &'a [u8]) -> Fields<'a>
    ensures { left result ≡ arguments text.now }
{
    match text {
        [_, b' ', rest @ ..] => Fields::of(rest),
        _ => Fields { rest: None },
    }
}

// A memory, a queue and roles, and nothing else. (Out of line, since a schedule opens seldom; it hands out the parts,
// since the compiler would keep a call that another function writes in memory, on the way of every line.)
#[cold]
fn opening<'a>(mut fields: Fields<'a>) -> Result<(MemoryKind, QueueKind, &'a [u8]), Refusal>
    ensures { over (λ p. opening_of p.0 p.1 p.2.now) result ≡ opened (left fields.entry) }
{
    let memory = MemoryKind::try_from(fields.next()?)?;
    let queue = QueueKind::try_from(fields.next()?)?;
    let roles = fields.next()?;
    if roles.is_empty() || fields.end().is_err() {
        return Err(Refusal::Fields);
    }
    Ok((memory, queue, roles))
}

// The call that O, R or P names, at the front of `text`. (Functions of their own, so that what they keep in memory is
// not made ready for the other letters.)
#[inline(always)]
fn open_call<'a>(text: &'a [u8]) -> Result<Call<'a>, Refusal>
    ensures { over ask result ≡ opened (arguments text.now) }
{
    let (memory, queue, roles) = opening(arguments_of(text))?;
    Ok(Call::Open(memory, queue, roles))
}

#[inline(always)]
fn read_call<'a>(text: &'a [u8]) -> Result<Call<'a>, Refusal>
    ensures { over ask result ≡ over (λ x. read x.0 x.1) (two (arguments text.now)) }
{
    let (task, row) = two_numbers(arguments_of(text))?;
    Ok(Call::Read(task, row))
}

#[inline(always)]
fn put_call<'a>(text: &'a [u8]) -> Result<Call<'a>, Refusal>
    ensures { over ask result ≡ over (λ x. put x.0 x.1 x.2) (three (arguments text.now)) }
{
    let (task, row, thickness) = three_numbers(arguments_of(text))?;
    Ok(Call::Put(task, row, thickness))
}

// The call of a task that E, S, U, D or L names. Lines that begin with one of these are most of a schedule, and
// their field is read in one place.
#[inline(always)]
fn task_call<'a>(letter: char, task: u32) -> Call<'a>
    ensures { ask result ≡ task_ask letter task }
{
    match letter {
        'E' => Call::Begin(task),
        'S' => Call::Advance(task),
        'U' => Call::Upgrade(task),
        'D' => Call::Downgrade(task),
        _ => Call::Leave(task),
    }
}

// The call that `letter` names, at the front of `text`.
#[inline(always)]
fn call_of<'a>(letter: char, text: &'a [u8]) -> Result<Call<'a>, Refusal>
    ensures { over ask result ≡ called letter (arguments text.now) }
{
    match letter {
        'O' => open_call(text),
        'R' => read_call(text),
        'P' => put_call(text),
        'E' | 'S' | 'U' | 'D' | 'L' => {
            let task = one_number(arguments_of(text))?;
            Ok(task_call(letter, task))
        }
        _ => Err(Refusal::Letter),
    }
}

// What the line `text` says. Refused: 40, 41, 42.
#[inline(always)]
pub fn parse_line<'a>(text: &'a [u8]) -> Result<Line<'a>, Refusal>
    ensures reads { over said result ≡ parse text.now }
    ensures whole { Whole result text.now }
{
    let Some(front) = text.first() else {
        return Ok(Line::Blank);
    };
    match *front as char {
        '#' => Ok(Line::Note(text)),
        letter => call_of(letter, text).map(Line::Call),
    }
}
