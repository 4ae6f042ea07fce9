// The record of a task: its way through the lines, its account, and the pass that is out to it.
ghost use Rattle.std.specs.Prelude.{◌≡◌};
ghost use Rattle.calls.specs.Records.{begun, fresh};

use crate::account::Account;
use lines::place::{Place, Right, Role};
use lines::track::Track;

#[derive(Clone, Copy)]
pub struct Record {
    pub track: Track,
    pub account: Account,
    // the right of the pass that is out
    pub out: Option<Right>,
}

impl Record {
    // A task of this role that never began.
    pub fn new(role: Role) -> Record
        ensures { result ≡ fresh role }
    {
        Record {
            track: Track::new(role),
            account: Account::new(),
            out: None,
        }
    }

    // The task stands before the first line of an attempt.
    pub fn begin(&mut self)
        ensures { self.new ≡ begun self.old }
    {
        self.account.restart();
        self.track.place = Place::Next(self.track.begin_line());
    }
}
