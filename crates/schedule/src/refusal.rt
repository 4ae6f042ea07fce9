// Why a line of a schedule is refused: by the text of the line, by the lock, or for want of room for its line of the listing.
// A refusal of the layers below goes up unchanged.
ghost use Rattle.std.specs.Prelude.{◌≡◌};
ghost use Rattle.schedule.specs.declared.refusal.Refusal.TheVariants.{Line as by_line, Lock as by_lock, Listing as by_listing};
ghost use Rattle.schedule.specs.Refusals.{refusal_number};

#[derive(Clone, Copy, PartialEq, Debug)]
pub enum Refusal {
    Line(script::refusal::Refusal),
    Lock(calls::refusal::Refusal),
    Listing(listing::refusal::Refusal),
}

impl Refusal {
    // The published number of the refusal, which the layer below has.
    pub fn number(self) -> u32
        ensures { result ≡ refusal_number self }
    {
        match self {
            Refusal::Line(why) => why.number(),
            Refusal::Lock(why) => why.number(),
            Refusal::Listing(why) => why.number(),
        }
    }
}

impl From<script::refusal::Refusal> for Refusal {
    ghost from_gives = { λ e r. r ≡ by_line e };

    fn from(why: script::refusal::Refusal) -> Refusal {
        Refusal::Line(why)
    }
}

impl From<calls::refusal::Refusal> for Refusal {
    ghost from_gives = { λ e r. r ≡ by_lock e };

    fn from(why: calls::refusal::Refusal) -> Refusal {
        Refusal::Lock(why)
    }
}

impl From<listing::refusal::Refusal> for Refusal {
    ghost from_gives = { λ e r. r ≡ by_listing e };

    fn from(why: listing::refusal::Refusal) -> Refusal {
        Refusal::Listing(why)
    }
}
