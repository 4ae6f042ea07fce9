// What a task paid.
ghost use Rattle.std.specs.Prelude.{◌≡◌};
ghost use Rattle.calls.specs.Accounts.{charged, restarted, unpaid};

// The cost, the upgrades and the downgrades of a task's current or latest attempt, and what it
// paid for all its finished attempts.
#[derive(Clone, Copy, PartialEq, Eq, Debug)]
pub struct Account {
    // the shares of the attempt's lines; stays at the largest number if it would pass that
    pub cost: u32,
    // upgrades obeyed in the attempt
    pub u: u32,
    // downgrades obeyed in it
    pub g: u32,
    // the costs of all finished attempts
    pub total: u64,
    // how many are finished
    pub finished: u32,
}

impl Account {
    // Of a task that never began.
    pub fn new() -> Account
        ensures { result ≡ unpaid }
    {
        Account {
            cost: 0,
            u: 0,
            g: 0,
            total: 0,
            finished: 0,
        }
    }

    // An attempt begins.
    pub fn restart(&mut self)
        ensures { self.new ≡ restarted self.old }
    {
        self.cost = 0;
        self.u = 0;
        self.g = 0;
    }

    // A line adds its share.
    pub fn charge(&mut self, share: u32)
        ensures { self.new ≡ charged self.old share }
    {
        self.cost = self.cost.saturating_add(share);
    }
}
