// The calls that need a pass, made by task: the pass is taken and used, and what is left of it is laid back. So no pass
// is out afterwards that was not out before.
ghost use Rattle.std.specs.Prelude.{◌≡◌, IfErr};
ghost use Rattle.calls.specs.Steps.{done, lay_back};
ghost use Rattle.calls.specs.Told.{right_told};
ghost use Rattle.lock.specs.Answers.{row_told, said};
ghost use Rattle.lock.specs.ByTask.{ByPlan, IsOut, Settles, downgrade_plan, leave_by, leave_plan, put_plan, read_by, read_plan, upgrade_plan};
ghost use Rattle.lock.specs.View.{Does, view};

use crate::locks::Lock;
use crate::pass::{Bears, Kept, Pass, Reading, Writing};
use calls::refusal::Refusal;
use lines::place::Right;
use memory::interface::Memory;
use queue::interface::Queue;

impl<'a, M: Memory, Q: Queue> Lock<'a, M, Q> {
    // Lays back a pass that is out.
    fn put_back<R: Bears>(&mut self, pass: Pass<R>)
        requires { IsOut M.Memory Q.Queue R.right pass.lock pass.task self.old }
        ensures { Does M.Memory Q.Queue (lay_back R.right pass.lock pass.task) self.old done self.new }
    {
        match self.lay_back(pass) {
            Ok(()) => (),
            Err(_) => unreachable(),
        }
    }

    // Tells what came of a call that spends a pass; where it was refused, the pass that came back is laid back.
    fn settle<R: Bears>(&mut self, made: Result<(), Kept<Pass<R>>>) -> Result<(), Refusal>
        requires { IfErr made (λ k. IsOut M.Memory Q.Queue R.right k.pass.lock k.pass.task self.old) }
        ensures { Settles M.Memory Q.Queue R.right made self.old (said result) self.new }
    {
        match made {
            Ok(()) => Ok(()),
            Err(kept) => {
                let Kept { pass, why } = kept;
                self.put_back(pass);
                Err(why)
            }
        }
    }

    /// Upgrades a task that has the reading right: does line 27.1. Whether the upgrade is granted, the task's right
    /// tells once it is inside again. Refused, and everything is as it was: 10, 20, 24, 25, 26, 29.
    pub fn upgrade_task(&mut self, task: u32) -> Result<(), Refusal>
        ensures { ByPlan M.Memory Q.Queue (upgrade_plan task) task self.old (said result) self.new }
    {
        let pass = self.take::<Reading>(task)?;
        let made = self.upgrade(pass);
        self.settle(made)
    }

    /// Downgrades a task that has the writing right: does line 25.1 or 28.1. Refused, and everything is as it was: 10,
    /// 20, 24, 25, 26.
    pub fn downgrade_task(&mut self, task: u32) -> Result<(), Refusal>
        ensures { ByPlan M.Memory Q.Queue (downgrade_plan task) task self.old (said result) self.new }
    {
        let pass = self.take::<Writing>(task)?;
        let made = self.downgrade(pass);
        self.settle(made)
    }

    // A task leaves, by a pass for this right.
    fn leave_with<R: Bears>(&mut self, task: u32) -> Result<(), Refusal>
        ensures { ByPlan M.Memory Q.Queue (leave_by R.right task) task self.old (said result) self.new }
    {
        let pass = self.take::<R>(task)?;
        let made = self.leave(pass);
        self.settle(made)
    }

    /// A task leaves, by whichever right it has: does the first line of its leave. Refused, and everything is as it
    /// was: 10, 20, 24, 25.
    pub fn leave_task(&mut self, task: u32) -> Result<(), Refusal>
        ensures { let told = right_told (view M.Memory Q.Queue self.old) task in
            ByPlan M.Memory Q.Queue (leave_plan told task) task self.old (said result) self.new }
    {
        match self.right(task) {
            Ok(Some(Right::Reading)) => self.leave_with::<Reading>(task),
            Ok(Some(Right::Writing)) => self.leave_with::<Writing>(task),
            Ok(None) => Err(Refusal::Outside),
            Err(why) => Err(why),
        }
    }

    // A row, by a pass for this right.
    fn read_with<R: Bears>(&mut self, task: u32, row: usize) -> Result<Option<u32>, Refusal>
        ensures by_plan { ByPlan M.Memory Q.Queue (read_by R.right task row) task self.old (row_told result) self.new }
        ensures same { view M.Memory Q.Queue self.new ≡ view M.Memory Q.Queue self.old }
    {
        let pass = self.take::<R>(task)?;
        let found = self.read(&pass, row);
        self.put_back(pass);
        found
    }

    /// The thickness in a row, in micrometres, or nothing where nobody has measured the rib, by whichever right the
    /// task has. Obeyed or refused, everything is as it was. Refused: 10, 20, 24, 25, 30, 32.
    pub fn read_row(&mut self, task: u32, row: usize) -> Result<Option<u32>, Refusal>
        ensures by_plan { let told = right_told (view M.Memory Q.Queue self.old) task in
            ByPlan M.Memory Q.Queue (read_plan told task row) task self.old (row_told result) self.new }
        ensures same { view M.Memory Q.Queue self.new ≡ view M.Memory Q.Queue self.old }
    {
        match self.right(task) {
            Ok(Some(Right::Reading)) => self.read_with::<Reading>(task, row),
            Ok(Some(Right::Writing)) => self.read_with::<Writing>(task, row),
            Ok(None) => Err(Refusal::Outside),
            Err(why) => Err(why),
        }
    }

    /// Puts a thickness into a row, in micrometres, by the writing right of the task. Refused, and everything is as it
    /// was: 10, 20, 24, 25, 26, 30, 31.
    pub fn put_row(&mut self, task: u32, row: usize, thickness: u32) -> Result<(), Refusal>
        ensures { ByPlan M.Memory Q.Queue (put_plan task row thickness) task self.old (said result) self.new }
    {
        let pass = self.take::<Writing>(task)?;
        let made = self.put(&pass, row, thickness);
        self.put_back(pass);
        made
    }
}
