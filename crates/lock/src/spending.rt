// The calls that spend a pass on a line: upgrade, downgrade and leave.
ghost use Rattle.std.specs.Prelude.{◌≡◌, IfErr};
ghost use Rattle.calls.specs.Steps.{downgrade, leave, upgrade};
ghost use Rattle.lock.specs.Answers.{said, spent};
ghost use Rattle.lock.specs.View.{Does};

use crate::locks::Lock;
use crate::pass::{Bears, Kept, Pass, ReadPass, WritePass};
use calls::refusal::Refusal;
use memory::interface::Memory;
use queue::interface::Queue;

impl<'a, M: Memory, Q: Queue> Lock<'a, M, Q> {
    // The task does line 27.1.
    fn upgrade_by(&mut self, pass: &ReadPass) -> Result<(), Refusal>
        ensures { Does M.Memory Q.Queue (upgrade pass.now.lock pass.now.task) self.old (said result) self.new }
    {
        let ready = self.holder(pass)?.ready_to_upgrade()?;
        self.do_line(ready)
    }

    // The task does line 25.1 or 28.1.
    fn downgrade_by(&mut self, pass: &WritePass) -> Result<(), Refusal>
        ensures { Does M.Memory Q.Queue (downgrade pass.now.lock pass.now.task) self.old (said result) self.new }
    {
        let ready = self.holder(pass)?.ready_to_downgrade();
        self.do_line(ready)
    }

    // The task does the first line of its leave.
    fn leave_by<R: Bears>(&mut self, pass: &Pass<R>) -> Result<(), Refusal>
        ensures { Does M.Memory Q.Queue (leave R.right pass.now.lock pass.now.task) self.old (said result) self.new }
    {
        let ready = self.holder(pass)?.ready_to_leave::<R>();
        self.do_line(ready)
    }

    // Does line 27.1 for a reading pass, which is spent. Refused, and the pass comes back: 10, 27, 28, 29.
    pub fn upgrade(&mut self, pass: ReadPass) -> Result<(), Kept<ReadPass>>
        ensures does { Does M.Memory Q.Queue (upgrade pass.lock pass.task) self.old (spent result) self.new }
        ensures back { IfErr result (λ kept. kept.pass ≡ pass) }
    {
        let made = self.upgrade_by(&pass);
        pass.end_or_keep(made)
    }

    // Does line 25.1 or 28.1 for a writing pass, which is spent. Refused, and the pass comes back: 10, 27, 28.
    pub fn downgrade(&mut self, pass: WritePass) -> Result<(), Kept<WritePass>>
        ensures does { Does M.Memory Q.Queue (downgrade pass.lock pass.task) self.old (spent result) self.new }
        ensures back { IfErr result (λ kept. kept.pass ≡ pass) }
    {
        let made = self.downgrade_by(&pass);
        pass.end_or_keep(made)
    }

    // Spends a pass on the first line of the task's leave. Refused, and the pass comes back: 10, 27, 28.
    pub fn leave<R: Bears>(&mut self, pass: Pass<R>) -> Result<(), Kept<Pass<R>>>
        ensures does { Does M.Memory Q.Queue (leave R.right pass.lock pass.task) self.old (spent result) self.new }
        ensures back { IfErr result (λ kept. kept.pass ≡ pass) }
    {
        let made = self.leave_by(&pass);
        pass.end_or_keep(made)
    }
}
