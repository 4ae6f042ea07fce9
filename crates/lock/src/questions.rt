// The questions that alter nothing: what a task paid, where it is, what it may do, who paid most, and what a cell holds.
ghost use Rattle.std.specs.Prelude.{◌≡◌};
ghost use Rattle.calls.specs.Told.{account_told, cell_told, costliest_told, place_told, right_told};
ghost use Rattle.lock.specs.View.{view};

use crate::locks::Lock;
use calls::account::Account;
use calls::costs::costliest;
use calls::refusal::Refusal;
use lines::place::{Place, Right};
use memory::interface::Memory;
use queue::interface::Queue;

impl<'a, M: Memory, Q: Queue> Lock<'a, M, Q> {
    // Whether the lock is open: one without tasks is closed.
    #[inline(always)]
    pub(crate) fn is_open(&self) -> bool
        ensures { result ≡ (view M.Memory Q.Queue self.now).opened }
    {
        self.records.count() > 0
    }

    // What a task paid. Refused: 10, 20.
    #[inline(always)]
    pub fn account(&self, task: u32) -> Result<Account, Refusal>
        ensures { result ≡ account_told (view M.Memory Q.Queue self.now) task }
    {
        Ok(self.find(task)?.state.account)
    }

    // Where a task is. Refused: 10, 20.
    #[inline(always)]
    pub fn place(&self, task: u32) -> Result<Place, Refusal>
        ensures { result ≡ place_told (view M.Memory Q.Queue self.now) task }
    {
        Ok(self.find(task)?.state.track.place)
    }

    // The right that a task has, none where it is not inside. Refused: 10, 20.
    #[inline(always)]
    pub fn right(&self, task: u32) -> Result<Option<Right>, Refusal>
        ensures { result ≡ right_told (view M.Memory Q.Queue self.now) task }
    {
        Ok(self.find(task)?.state.track.right())
    }

    // The task with the greatest cost, the lowest of them. Refused: 10.
    pub fn costliest(&self) -> Result<u32, Refusal>
        ensures { result ≡ costliest_told (view M.Memory Q.Queue self.now) }
    {
        costliest(self.records.tasks())
            .map(|task| task as u32)
            .ok_or(Refusal::Shut)
    }

    // What a cell holds. Refused: 10, then the memory's 2.
    pub fn cell(&self, cell: u32) -> Result<u32, Refusal>
        ensures { result ≡ cell_told (view M.Memory Q.Queue self.now) cell }
    {
        if !self.is_open() {
            return Err(Refusal::Shut);
        }
        Ok(self.memory.show(cell)?)
    }
}
