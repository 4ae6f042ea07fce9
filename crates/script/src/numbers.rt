// Fields that are numbers. Whether each field is a numeral is asked of the whole
// line before the size of any number, so the two questions are functions of their own.
ghost use Rattle.std.specs.Prelude.{◌≡◌, min, take, drop, MatchResult};
ghost use Rattle.std.specs.Char.{is_ascii_digit};
ghost use Rattle.std.specs.List.{prefix_len};
ghost use Rattle.script.specs.declared.refusal.Refusal.TheVariants as why;
ghost use Rattle.script.specs.Fields.{left};
ghost use Rattle.script.specs.Numbers.{FrontTold, TookNumber, narrowed, one, three, two, value_after};

use crate::fields::{Fields, past_space};
use crate::refusal::Refusal;

// Larger than any number of 32 bits.
const TOO_LARGE: u64 = 1 << 32;

// The number that `front` and the digits at the front of `text` say, or `TOO_LARGE` where it is larger, and what
// stands after those digits.
// A loop, since `try_fold` would need a closure with a contract of its own, and `parse` of a `str` would have the
// bytes checked as UTF-8 first.
#[inline(always)]
fn digits<'a>(front: u8, text: &'a [u8]) -> (u64, &'a [u8])
    ensures value { result.0 ≡ min (value_after front (take (prefix_len is_ascii_digit text.now) text.now)) 4294967296 }
    ensures rest { result.1.now ≡ drop (prefix_len is_ascii_digit text.now) text.now }
{
    let mut n = front as u64;
    for (i, b) in text.iter().enumerate() {
        if !b.is_ascii_digit() {
            return (n, &text[i..]);
        }
        n = (10 * n + (*b - b'0') as u64).min(TOO_LARGE);
    }
    (n, &text[text.len()..])
}

// The numeral at the front of `text`, a 0 or digits that begin with another: the number that it says, or `TOO_LARGE`
// where it is larger, and what stands after it. Refused: 41, where no digit stands there.
#[inline(always)]
fn numeral<'a>(text: &'a [u8]) -> Result<(u64, &'a [u8]), Refusal>
    ensures { FrontTold text.now result }
{
    let (first, later) = text.split_first().ok_or(Refusal::Fields)?;
    if *first == b'0' {
        return Ok((0, later));
    }
    if !first.is_ascii_digit() {
        return Err(Refusal::Fields);
    }
    Ok(digits(*first - b'0', later))
}

impl Fields<'_> {
    // Takes a field that is a numeral. The number that it says, or `TOO_LARGE` where it is larger. Refused: 41.
    #[inline(always)]
    fn number(&mut self) -> Result<u64, Refusal>
        ensures { TookNumber (left self.old) result (left self.new) }
    {
        let text = self.rest.ok_or(Refusal::Fields)?;
        let (n, more) = numeral(text)?;
        self.rest = past_space(more)?;
        Ok(n)
    }
}

// The number `n`, if it has at most 32 bits. Refused: 42.
#[inline(always)]
fn narrow(n: u64) -> Result<u32, Refusal>
    ensures { result ≡ narrowed n }
{
    if n > u32::MAX as u64 {
        return Err(Refusal::Number);
    }
    Ok(n as u32)
}

// One number and nothing else.
#[inline(always)]
pub(crate) fn one_number(mut fields: Fields) -> Result<u32, Refusal>
    ensures { result ≡ one (left fields.entry) }
{
    let a = fields.number()?;
    fields.end()?;
    narrow(a)
}

// Two numbers and nothing else.
#[inline(always)]
pub(crate) fn two_numbers(mut fields: Fields) -> Result<(u32, u32), Refusal>
    ensures { result ≡ two (left fields.entry) }
{
    let a = fields.number()?;
    let b = fields.number()?;
    fields.end()?;
    Ok((narrow(a)?, narrow(b)?))
}

// Three numbers and nothing else.
#[inline(always)]
pub(crate) fn three_numbers(mut fields: Fields) -> Result<(u32, u32, u32), Refusal>
    ensures { result ≡ three (left fields.entry) }
{
    let a = fields.number()?;
    let b = fields.number()?;
    let c = fields.number()?;
    fields.end()?;
    Ok((narrow(a)?, narrow(b)?, narrow(c)?))
}
