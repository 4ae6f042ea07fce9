// Where a line ends: at the first byte 10. The last line may end with the input,
// and then the place after it is the end of the input.
ghost use Rattle.std.specs.Prelude.{◌≡◌, ◌+◌, ◌<◌, ◌≤◌, MatchOption, drop, length};
ghost use Rattle.script.specs.Cuts.{FirstAt, before};
ghost use Rattle.script.specs.Reading.{LineAt};

use memchr::memchr;
use std::simd::prelude::*;

// Where the first `mark` among the first N bytes stands; nothing where there is none.
#[inline(always)]
fn first_of<const N: usize>(text: &[u8], mark: u8) -> Option<usize>
    requires lanes { N ≤ 64 }
    requires long { N ≤ length text.now }
    ensures { MatchOption result (before mark text.now ≡ N + before mark (drop N text.now)) (FirstAt mark text.now) }
{
    let marks = Simd::<u8, N>::from_slice(text).simd_eq(Simd::splat(mark));
    if marks.any() {
        return Some(marks.to_bitmask().trailing_zeros() as usize);
    }
    None
}

// Where the first `mark` stands, if it is one of the first 16 bytes, which are asked at once; nothing where there are fewer.
#[inline(always)]
fn near(text: &[u8], mark: u8) -> Option<usize>
    ensures { MatchOption result (16 ≤ length text.now → 16 ≤ before mark text.now) (FirstAt mark text.now) }
{
    if text.len() < 16 {
        return None;
    }
    first_of::<16>(text, mark)
}

// Where the first `mark` stands; nothing where there is none. 64 bytes are asked at once.
fn far(text: &[u8], mark: u8) -> Option<usize>
    ensures { MatchOption result (before mark text.now ≡ length text.now) (FirstAt mark text.now) }
{
    let blocks = text.len() / 64;
    for i in 0..blocks {
        if let Some(at) = first_of::<64>(&text[64 * i..], mark) {
            return Some(64 * i + at);
        }
    }
    match memchr(mark, &text[64 * blocks..]) {
        Some(end) => Some(64 * blocks + end),
        None => None,
    }
}

// The line that begins at `at`, and where the next one begins; nothing at the end of the input. Most lines are
// short, so their end is looked for near by first.
#[inline(always)]
pub(crate) fn line_at<'a>(input: &'a [u8], at: usize) -> Option<(&'a [u8], usize)>
    requires { at ≤ length input.now }
    ensures { LineAt input.now at result }
{
    let rest = &input[at..];
    if rest.is_empty() {
        return None;
    }
    if let Some(end) = near(rest, b'\n') {
        return Some((&rest[..end], at + end + 1));
    }
    match far(rest, b'\n') {
        Some(end) => Some((&rest[..end], at + end + 1)),
        None => Some((rest, input.len())),
    }
}
