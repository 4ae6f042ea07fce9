// Why a schedule, or one line of it, is refused.
//
// The questions are asked in the order of the variants, but for the last,
// which is asked once, of the whole input, before any line.
ghost use Rattle.std.specs.Prelude.{◌≡◌};
ghost use Rattle.script.specs.Refusals.{refusal_number};

#[derive(Clone, Copy, PartialEq, Eq, Debug)]
pub enum Refusal {
    // is the letter at the front of the line known?
    Letter = 40,
    // has the letter as many fields as it takes, each well formed?
    Fields = 41,
    // does each number fit into 32 bits?
    Number = 42,
    // has the input at most 65,536 bytes?
    Length = 43,
}

impl Refusal {
    // The published number of the refusal: a cast of its own enum, which no generic function can make.
    pub fn number(self) -> u32
        ensures { result ≡ refusal_number self }
    {
        self as u32
    }
}
