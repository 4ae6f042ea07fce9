// What a lock whose memory is the cache layer answers to a call of a schedule.
ghost use Rattle.std.specs.Prelude.{◌≡◌, false};
ghost use Rattle.cache.specs.Layers.{cached};
ghost use Rattle.calls.specs.Questions.{task_refusal};
ghost use Rattle.calls.specs.Told.{told};
ghost use Rattle.lock.specs.View.{view};
ghost use Rattle.script.specs.Calls.{ask};
ghost use Rattle.schedule.specs.Answers.{IsThere, Makes, Opens, Tells, place_shown, row_shown, task_shown};

use crate::serving::Serve;
use cache::layer::Cache;
use calls::refusal::Refusal;
use lines::place::{Place, Right};
use listing::answer::{Answer, Place as Shown};
use lock::locks::Lock;
use memory::interface::Memory;
use memory::store::Store;
use queue::interface::Queue;
use script::call::Call;

// A task's place as a listing shows it. No `From`, since it takes the place and the right.
fn shown(place: Place, right: Option<Right>) -> Shown
    ensures { result ≡ place_shown place right }
{
    match (place, right) {
        (_, Some(Right::Reading)) => Shown::Reading,
        (_, Some(Right::Writing)) => Shown::Writing,
        (Place::Next(line), None) => Shown::At(line.tenfold()),
        (Place::Rest | Place::Inside, None) => Shown::Rest,
    }
}

// The place and the cost of a task.
#[inline(always)]
fn moved<M: Memory, Q: Queue>(lock: &Lock<'_, M, Q>, task: u32) -> Result<Answer, Refusal>
    ensures { let s = view M.Memory Q.Queue lock.now in result ≡ told (task_refusal s task) (task_shown s task) }
{
    let account = lock.account(task)?;
    let place = lock.place(task)?;
    let right = lock.right(task)?;
    Ok(Answer::Moved(shown(place, right), account.cost))
}

// The same, and what a row gave.
fn row_told<M: Memory, Q: Queue>(
    lock: &Lock<'_, M, Q>,
    task: u32,
    row: Option<u32>,
) -> Result<Answer, Refusal>
    ensures { let s = view M.Memory Q.Queue lock.now in result ≡ told (task_refusal s task) (row_shown s task row) }
{
    let account = lock.account(task)?;
    let place = lock.place(task)?;
    let right = lock.right(task)?;
    Ok(Answer::Row(shown(place, right), account.cost, row))
}

// What an obeyed call has to tell.
#[derive(Clone, Copy)]
enum Done {
    // how many tasks there then are
    Opened(u32),
    // where this task then is
    Moved(u32),
    // the same, and what a row gave
    Row(u32, Option<u32>),
}

// Opens the lock, and tells how many tasks there then are. (Apart from the other calls, since a schedule opens seldom and
// the new records need much room.)
#[inline(never)]
pub(crate) fn open<S: Store, Q: Queue>(
    lock: &mut Lock<'_, Cache<S>, Q>,
    roles: &[u8],
) -> Result<u32, Refusal>
    ensures { Opens ⟦<S as Memory>⟧ Q.Queue S.LIMIT lock.old roles.now result lock.new }
{
    lock.open_cached(roles)?;
    Ok(roles.len() as u32)
}

// Makes the call to this lock.
#[inline(always)]
fn make<S: Store, Q: Queue>(
    lock: &mut Lock<'_, Cache<S>, Q>,
    call: Call<'_>,
) -> Result<Done, Refusal>
    ensures tells { Makes ⟦<S as Memory>⟧ Q.Queue S.LIMIT lock.old (ask call.entry) result lock.new }
    ensures there { IsThere (view (cached ⟦<S as Memory>⟧) Q.Queue lock.new) result }
{
    match call {
        Call::Open(_, _, roles) => Ok(Done::Opened(open(lock, roles)?)),
        Call::Begin(task) => {
            lock.begin(task)?;
            Ok(Done::Moved(task))
        }
        Call::Advance(task) => {
            lock.advance(task)?;
            Ok(Done::Moved(task))
        }
        Call::Upgrade(task) => {
            lock.upgrade_task(task)?;
            Ok(Done::Moved(task))
        }
        Call::Downgrade(task) => {
            lock.downgrade_task(task)?;
            Ok(Done::Moved(task))
        }
        Call::Leave(task) => {
            lock.leave_task(task)?;
            Ok(Done::Moved(task))
        }
        Call::Read(task, row) => Ok(Done::Row(task, lock.read_row(task, row as usize)?)),
        Call::Put(task, row, thickness) => {
            lock.put_row(task, row as usize, thickness)?;
            Ok(Done::Moved(task))
        }
    }
}

impl<S: Store, Q: Queue> Serve for Lock<'_, Cache<S>, Q> {
    ghost serves = { Tells ⟦<S as Memory>⟧ Q.Queue S.LIMIT };

    ghost done = { λ l. false };

    #[inline(always)]
    fn answer(&mut self, call: Call<'_>) -> Result<Answer, Refusal> {
        match make(self, call)? {
            Done::Opened(tasks) => Ok(Answer::Opened(tasks)),
            Done::Moved(task) => moved(self, task),
            Done::Row(task, row) => row_told(self, task, row),
        }
    }

    fn is_done(&self) -> bool {
        false
    }
}
