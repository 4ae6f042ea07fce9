// The fields of a line, one after another. Single spaces part them, so two
// spaces in a row, or one at the end, make an empty field.
ghost use Rattle.std.specs.Prelude.{◌≡◌};
ghost use Rattle.script.specs.Cuts.{fields as parted};
ghost use Rattle.script.specs.Fields.{left, Took, PastSpace, ended};

use crate::refusal::Refusal;
use memchr::memchr;

#[derive(Clone, Copy)]
pub(crate) struct Fields<'a> {
    // What stands after the last space that was passed; nothing where no field is left.
    pub(crate) rest: Option<&'a [u8]>,
}

// What stands after the space that `more`, the bytes after a field, begins with; nothing where there are none.
#[inline(always)]
pub(crate) fn past_space<'a>(more: &'a [u8]) -> Result<Option<&'a [u8]>, Refusal>
    ensures { PastSpace more.now result }
{
    match more {
        [] => Ok(None),
        [b' ', rest @ ..] => Ok(Some(rest)),
        _ => Err(Refusal::Fields),
    }
}

impl<'a> Fields<'a> {
    #[inline(always)]
    pub(crate) fn of(text: &'a [u8]) -> Fields<'a>
        ensures { left result ≡ parted text.now }
    {
        Fields { rest: Some(text) }
    }

    pub(crate) fn next(&mut self) -> Result<&'a [u8], Refusal>
        ensures { Took (left self.old) result (left self.new) }
    {
        let text = self.rest.ok_or(Refusal::Fields)?;
        match memchr(b' ', text) {
            Some(end) => {
                self.rest = Some(&text[end + 1..]);
                Ok(&text[..end])
            }
            None => {
                self.rest = None;
                Ok(text)
            }
        }
    }

    // No field is left. (A match, since here what is there is refused and what is not is well.)
    #[inline(always)]
    pub(crate) fn end(self) -> Result<(), Refusal>
        ensures { result ≡ ended (left self.entry) }
    {
        match self.rest {
            None => Ok(()),
            Some(_) => Err(Refusal::Fields),
        }
    }
}
