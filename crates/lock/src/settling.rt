// What a line that was done makes of its task's record.
ghost use Rattle.std.specs.Prelude.{◌≡◌, ◌*◌, ◌<◌, ◌≤◌, true, None, length};
ghost use Rattle.calls.specs.Accounts.{closed};
ghost use Rattle.calls.specs.Questions.{advance_refusal};
ghost use Rattle.calls.specs.Records.{arrived, in_order, settled};
ghost use Rattle.lock.specs.Tasks.{with_settled};
ghost use Rattle.lock.specs.View.{record_at, records_of};

use crate::deeds::Told;
use crate::records::Records;
use calls::account::Account;
use calls::record::Record;
use lines::place::Place;

// The attempt is finished. Its task had a finish left when it began.
fn close(account: &mut Account)
    requires few { account.old.finished < 1000000 }
    requires small { account.old.total ≤ account.old.finished * 4294967295 }
    ensures { account.new ≡ closed account.old }
{
    account.total += account.cost as u64;
    account.finished += 1;
}

// The account of a task that came to this place: at rest its attempt is finished. It had a finish left when the attempt began.
fn arrive(account: &mut Account, place: Place)
    requires few { account.old.finished < 1000000 }
    requires small { account.old.total ≤ account.old.finished * 4294967295 }
    ensures { account.new ≡ arrived place account.old }
{
    if let Place::Rest = place {
        close(account);
    }
}

// The task with this record did its next line, and this is what was told of it.
#[inline(always)]
#[tactic(auto, using(calls::proofs::Sound::room))]
fn settle_one(state: &mut Record, told: Told)
    requires ordered { in_order state.old ≡ true }
    requires on_line { advance_refusal state.old ≡ None }
    ensures { state.new ≡ settled state.old told.found told.share }
{
    state.track.step(told.found);
    state.account.charge(told.share);
    arrive(&mut state.account, state.track.place);
}

impl Records {
    // The same for the task with this number.
    #[inline(always)]
    pub(crate) fn settle(&mut self, number: u32, told: Told)
        requires low { 1 ≤ number }
        requires high { number ≤ length (records_of self.old) }
        requires on_line { advance_refusal (record_at (records_of self.old) number) ≡ None }
        ensures is { records_of self.new ≡ with_settled (records_of self.old) number told }
        ensures count { length (records_of self.new) ≡ length (records_of self.old) }
    {
        settle_one(&mut self.all[number as usize - 1], told);
    }
}
