// Writing one line of a listing at the start of a lent buffer. The room is asked
// before the first byte, so a buffer with too little room stays as it was.
ghost use Rattle.std.specs.Prelude.{◌≡◌, ◌+◌, ◌≤◌, length, OnOk};
ghost use Rattle.listing.specs.Listing.{heading, noted, shown};
ghost use Rattle.listing.specs.Written.{Put, PutIn, Takes, TookBytes};

use crate::answer::Answer;
use crate::digits::{put_byte, put_long, put_text, width};
use crate::refusal::Refusal;

// The number of a line and a space, where there is room for them.
#[inline(always)]
fn put_front(out: &mut [u8], number: u32) -> usize
    requires { length (heading number) ≤ length out.old }
    ensures { Takes 0 out.old (heading number) result out.new }
{
    let at = put_long(out, 0, number);
    put_byte(out, at, b' ')
}

/// Writes what the line `number` of a listing begins with, and tells how many bytes it has, at most 11. Refused: 39,
/// where `out` has less room.
pub fn put_heading(out: &mut [u8], number: u32) -> Result<usize, Refusal>
    ensures line { Put out.old (heading number) result out.new }
    ensures short { length (heading number) ≤ 11 }
{
    if out.len() <= width(number) {
        return Err(Refusal::Room);
    }
    Ok(put_front(out, number))
}

/// Writes the line `number` of a listing, for a note, and tells how many bytes it has, at most 12 more than the note.
/// Refused: 39, where `out` has less room. (`out` and `number` come side by side, here and in what calls this: the
/// buffer is lent for one line, and a struct around both would hold the loan.)
#[inline(always)]
pub fn put_note(out: &mut [u8], number: u32, text: &[u8]) -> Result<usize, Refusal>
    ensures line { Put out.old (noted number text.now) result out.new }
    ensures short { length (noted number text.now) ≤ 12 + length text.now }
{
    if out.len() <= width(number) + 1 + text.len() {
        return Err(Refusal::Room);
    }
    let at = put_front(out, number);
    let at = put_text(out, at, text);
    Ok(put_byte(out, at, b'\n'))
}

// The line of a call that gave `answer`, where there is room for any such line.
#[inline(always)]
pub(crate) fn put_line(out: &mut [u8], number: u32, answer: Answer) -> usize
    requires { 64 ≤ length out.old }
    ensures written { TookBytes out.old (shown number answer) result out.new }
    ensures short { length (shown number answer) ≤ 64 }
{
    let at = put_long(out, 0, number);
    let at = answer.put(out, at);
    put_byte(out, at, b'\n')
}

/// As `put_note`, for a call that gave `answer`: a line of at most 64 bytes. Refused: 39, where `out` has fewer than 64
/// bytes, the room for any such line.
#[inline(always)]
pub fn put_answer(out: &mut [u8], number: u32, answer: Answer) -> Result<usize, Refusal>
    ensures line { PutIn 64 out.old (shown number answer) result out.new }
    ensures short { OnOk result (length (shown number answer) ≤ 64) }
{
    if out.len() < 64 {
        return Err(Refusal::Room);
    }
    Ok(put_line(out, number, answer))
}
