// A schedule that is read line by line: its bytes, how far they are read, and
// how many lines were handed out. Each line handed out moves the place on by at
// least one byte, so the count never passes the place, whatever the input's length.
ghost use Rattle.std.specs.Prelude.{◌≡◌, ◌≤◌, length};

// The whole input and a place in it: lines are parts of the input, nothing is copied, and `number` promises to
// stay within the whole of it.
#[derive(Drop)]
pub struct Reader<'a> {
    pub(crate) input: &'a [u8],
    pub(crate) at: usize,
    pub(crate) number: usize,
    ghost counted: { number ≤ at },
    ghost within: { at ≤ length input.now },
}

impl Reader<'_> {
    // How many lines were handed out: no more than the input has bytes.
    pub fn number(&self) -> usize
        ensures value { result ≡ self.now.number }
        ensures within { result ≤ length self.now.input.now }
    {
        self.number
    }
}
