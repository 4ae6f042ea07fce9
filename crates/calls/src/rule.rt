// The six rules that a state of the lock keeps.
ghost use Rattle.std.specs.Prelude.{◌≡◌};
ghost use Rattle.calls.specs.Rules.{rule_number};

#[derive(Clone, Copy, PartialEq, Eq, Debug)]
pub enum Rule {
    // each cell is within its range
    Ranges = 1,
    // C is the number of counted tasks
    Count = 2,
    // beside a task with the writing right no other is in the section
    Exclusion = 3,
    // at most one task is upgrading or upgraded
    Upgrade = 4,
    // U is 2 exactly when one task is upgraded
    CellU = 5,
    // a normal writer is inside only while X is 0
    CellX = 6,
}

impl Rule {
    // The published number of the rule: a cast of its own enum, which no generic function can make.
    pub fn number(self) -> u32
        ensures { result ≡ rule_number self }
    {
        self as u32
    }
}
