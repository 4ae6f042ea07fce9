// Bytes, texts and the digits of a number, written into a lent buffer behind the `at`
// bytes that it has taken. Each function returns how many bytes it has taken then.
// (`out` and `at` come side by side: a struct around both would hold the loan.)
ghost use Rattle.std.specs.Prelude.{◌≡◌, ◌+◌, ◌/◌, ◌%◌, ◌<◌, ◌≤◌, [], ◌∷◌, ◌++◌, length, decimal};
ghost use Rattle.listing.specs.Digits.{two};
ghost use Rattle.listing.specs.Written.{Takes};

// "00" to "99", one behind another.
static PAIRS: [u8; 200] =
    *b"00010203040506070809101112131415161718192021222324252627282930313233343536373839404142434445464748495051525354555657585960616263646566676869707172737475767778798081828384858687888990919293949596979899";

#[inline(always)]
pub(crate) fn put_byte(out: &mut [u8], at: usize, byte: u8) -> usize
    requires { at < length out.old }
    ensures { Takes at out.old (byte ∷ []) result out.new }
{
    out[at] = byte;
    at + 1
}

// The bytes of `text`.
#[inline(always)]
pub(crate) fn put_text(out: &mut [u8], at: usize, text: &[u8]) -> usize
    requires { at + length text.now ≤ length out.old }
    ensures { Takes at out.old text.now result out.new }
{
    let end = at + text.len();
    out[at..end].copy_from_slice(text);
    end
}

// A number below 100 with both its digits.
#[inline(always)]
fn put_two(out: &mut [u8], at: usize, number: u32) -> usize
    requires { (number < 100) × (at + 2 ≤ length out.old) }
    ensures { Takes at out.old (two number) result out.new }
{
    let from = number as usize * 2;
    let at = put_byte(out, at, PAIRS[from]);
    put_byte(out, at, PAIRS[from + 1])
}

// A number below 10000 with all four digits.
#[inline(always)]
fn put_four(out: &mut [u8], at: usize, number: u32) -> usize
    requires { (number < 10000) × (at + 4 ≤ length out.old) }
    ensures { Takes at out.old (two (number / 100) ++ two (number % 100)) result out.new }
{
    let at = put_two(out, at, number / 100);
    put_two(out, at, number % 100)
}

// A number below 10.
#[inline(always)]
fn put_one(out: &mut [u8], at: usize, number: u32) -> usize
    requires { (number < 10) × (at < length out.old) }
    ensures { Takes at out.old (decimal number) result out.new }
{
    put_byte(out, at, b'0' + number as u8)
}

// A number below 1000.
#[inline(always)]
fn put_short(out: &mut [u8], at: usize, number: u32) -> usize
    requires { (number < 1000) × (at + length (decimal number) ≤ length out.old) }
    ensures { Takes at out.old (decimal number) result out.new }
{
    if number < 10 {
        return put_one(out, at, number);
    }
    if number < 100 {
        return put_two(out, at, number);
    }
    let at = put_one(out, at, number / 100);
    put_two(out, at, number % 100)
}

// A number below a million.
#[inline(always)]
fn put_middle(out: &mut [u8], at: usize, number: u32) -> usize
    requires { (number < 1000000) × (at + length (decimal number) ≤ length out.old) }
    ensures { Takes at out.old (decimal number) result out.new }
{
    if number < 1000 {
        return put_short(out, at, number);
    }
    if number < 10000 {
        return put_four(out, at, number);
    }
    let at = put_short(out, at, number / 10000);
    put_four(out, at, number % 10000)
}

// The digits of a number that mostly has more than three.
#[inline(always)]
pub(crate) fn put_long(out: &mut [u8], at: usize, number: u32) -> usize
    requires { at + length (decimal number) ≤ length out.old }
    ensures { Takes at out.old (decimal number) result out.new }
{
    if number < 10000 {
        return put_middle(out, at, number);
    }
    let at = put_middle(out, at, number / 10000);
    put_four(out, at, number % 10000)
}

// The same, out of line, where a number is seldom written.
#[cold]
pub(crate) fn put_rare(out: &mut [u8], at: usize, number: u32) -> usize
    requires { at + length (decimal number) ≤ length out.old }
    ensures { Takes at out.old (decimal number) result out.new }
{
    put_long(out, at, number)
}

// The digits of a number that mostly has few.
#[inline(always)]
pub(crate) fn put_number(out: &mut [u8], at: usize, number: u32) -> usize
    requires { at + length (decimal number) ≤ length out.old }
    ensures { Takes at out.old (decimal number) result out.new }
{
    if number < 10 {
        return put_one(out, at, number);
    }
    if number < 1000 {
        return put_short(out, at, number);
    }
    put_rare(out, at, number)
}

// How many digits a number below 100 has.
#[inline(always)]
fn short_width(number: u32) -> usize
    requires { number < 100 }
    ensures { result ≡ length (decimal number) }
{
    if number < 10 { 1 } else { 2 }
}

// How many digits a number below 10000 has.
#[inline(always)]
fn middle_width(number: u32) -> usize
    requires { number < 10000 }
    ensures { result ≡ length (decimal number) }
{
    if number < 100 {
        return short_width(number);
    }
    short_width(number / 100) + 2
}

// How many digits `number` has.
#[inline(always)]
pub(crate) fn width(number: u32) -> usize
    ensures { result ≡ length (decimal number) }
{
    if number < 10000 {
        return middle_width(number);
    }
    let high = number / 10000;
    if high < 10000 {
        return middle_width(high) + 4;
    }
    short_width(high / 10000) + 8
}
