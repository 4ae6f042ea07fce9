// Why the lock refuses a call. A refusal of the memory or of the queue goes up unchanged.
ghost use Rattle.std.specs.Prelude.{◌≡◌};
ghost use Rattle.calls.specs.declared.refusal.Refusal.TheVariants.{Memory as by_memory, Queue as by_queue};
ghost use Rattle.calls.specs.Refusals.{refusal_number};

#[derive(Clone, Copy, PartialEq, Debug)]
pub enum Refusal {
    Memory(memory::refusal::Refusal),
    Queue(queue::refusal::Refusal),
    // is the lock open?
    Shut,
    // is the lock closed?
    Opened,
    // are the roles no fewer than 1 and no more than 64?
    Roles,
    // is each R or W?
    Role,
    // is the memory's limit no less than 2, and no less than there are tasks?
    Limit,
    // does the memory tell a ceiling of no more than 1,000?
    Ceiling,
    // is the queue empty?
    Queued,
    // is the task from 1 to the number of tasks?
    NoTask,
    // is the task at rest?
    Busy,
    // has it fewer than 1,000,000 finished attempts?
    Finished,
    // is the task on a line?
    OffLine,
    // is the task inside?
    Outside,
    // is no pass out to it?
    PassOut,
    // is its right the one wanted?
    OtherRight,
    // has the pass this lock's number?
    OtherLock,
    // is a pass for its right out to its task here?
    NoPass,
    // had the attempt fewer than 1,000 upgrades?
    Upgrades,
    // does the table have that row?
    NoRow,
    // is the thickness from 1 to 1,000,000?
    Thickness,
    // is what the row holds no more than a thickness can be, 1,000,000?
    Stored,
}

impl Refusal {
    // The published number of the refusal.
    pub fn number(self) -> u32
        ensures { result ≡ refusal_number self }
    {
        // one by one, since a refusal from below has a number of its own, and then no other can be a discriminant
        match self {
            Refusal::Memory(why) => why.number(),
            Refusal::Queue(why) => why.number(),
            Refusal::Shut => 10,
            Refusal::Opened => 11,
            Refusal::Roles => 12,
            Refusal::Role => 13,
            Refusal::Limit => 14,
            Refusal::Ceiling => 15,
            Refusal::Queued => 16,
            Refusal::NoTask => 20,
            Refusal::Busy => 21,
            Refusal::Finished => 22,
            Refusal::OffLine => 23,
            Refusal::Outside => 24,
            Refusal::PassOut => 25,
            Refusal::OtherRight => 26,
            Refusal::OtherLock => 27,
            Refusal::NoPass => 28,
            Refusal::Upgrades => 29,
            Refusal::NoRow => 30,
            Refusal::Thickness => 31,
            Refusal::Stored => 32,
        }
    }
}

impl From<memory::refusal::Refusal> for Refusal {
    ghost from_gives = { λ e r. r ≡ by_memory e };

    fn from(why: memory::refusal::Refusal) -> Refusal {
        Refusal::Memory(why)
    }
}

impl From<queue::refusal::Refusal> for Refusal {
    ghost from_gives = { λ e r. r ≡ by_queue e };

    fn from(why: queue::refusal::Refusal) -> Refusal {
        Refusal::Queue(why)
    }
}
