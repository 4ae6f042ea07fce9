// Passes handed out and laid back.
ghost use Rattle.std.specs.Prelude.{◌≡◌, None, IfErr, IfOk};
ghost use Rattle.calls.specs.Questions.{take_refusal};
ghost use Rattle.calls.specs.Records.{with_out};
ghost use Rattle.calls.specs.Steps.{lay_back, take};
ghost use Rattle.lock.specs.Answers.{Asked, said, spent, taken};
ghost use Rattle.lock.specs.Tasks.{FindsHolder, HandsOut};
ghost use Rattle.lock.specs.View.{Does};

use crate::locks::Lock;
use crate::pass::{Bears, Kept, Pass};
use crate::task::Task;
use calls::record::Record;
use calls::refusal::Refusal;
use lines::place::Right;
use memory::interface::Memory;
use queue::interface::Queue;

// Whether a task that has this right, and this pass out, may take one for the right wanted.
fn may_take(has: Option<Right>, out: Option<Right>, wanted: Right) -> Result<(), Refusal>
    ensures { Asked (take_refusal has out wanted) result (Unit {0}) }
{
    let right = has.ok_or(Refusal::Outside)?;
    if out.is_some() {
        return Err(Refusal::PassOut);
    }
    if right != wanted {
        return Err(Refusal::OtherRight);
    }
    Ok(())
}

impl Task {
    // A pass for this right goes out to the task. Refused: 24, 25, 26.
    #[tactic(auto, using(calls::proofs::Sound::out_in_order))]
    fn hand_out(self, right: Right) -> Result<Task, Refusal>
        ensures { HandsOut self right result }
    {
        may_take(self.state.track.right(), self.state.out, right)?;
        let state = Record {
            out: Some(right),
            ..self.state
        };
        Ok(Task {
            number: self.number,
            state,
        })
    }

    // No pass is out to the task any more.
    #[tactic(auto, using(calls::proofs::Sound::back_in_order))]
    fn take_back(self) -> Task
        ensures number { result.number ≡ self.number }
        ensures state { result.state ≡ with_out self.state None }
    {
        let state = Record {
            out: None,
            ..self.state
        };
        Task {
            number: self.number,
            state,
        }
    }
}

impl<'a, M: Memory, Q: Queue> Lock<'a, M, Q> {
    // The task that a pass names, where such a pass is out to it. Refused: 10, 27, 28.
    #[inline(always)]
    pub(crate) fn holder<R: Bears>(&self, pass: &Pass<R>) -> Result<Task, Refusal>
        ensures { FindsHolder M.Memory Q.Queue self.now R.right pass.now.lock pass.now.task result }
    {
        if !self.is_open() {
            return Err(Refusal::Shut);
        }
        if pass.lock != self.number {
            return Err(Refusal::OtherLock);
        }
        let task = self.records.get(pass.task).ok_or(Refusal::NoPass)?;
        if task.state.out != Some(R::which()) {
            return Err(Refusal::NoPass);
        }
        Ok(task)
    }

    /// Hands out a pass to a task that has the right which it bears: the pass is of this lock and of the task. Refused: 10,
    /// 20, 24, 25, 26.
    pub fn take<R: Bears>(&mut self, task: u32) -> Result<Pass<R>, Refusal>
        ensures lock { IfOk result (λ pass. pass.lock ≡ self.old.number) }
        ensures task { IfOk result (λ pass. pass.task ≡ task) }
        ensures does { Does M.Memory Q.Queue (take R.right task) self.old (taken R.right result) self.new }
    {
        let right = R::which();
        let holder = self.find(task)?.hand_out(right)?;
        self.records.put(holder);
        Ok(Pass::new(self.number, task))
    }

    // The pass of the task comes back.
    fn lay_back_by<R: Bears>(&mut self, pass: &Pass<R>) -> Result<(), Refusal>
        ensures { Does M.Memory Q.Queue (lay_back R.right pass.now.lock pass.now.task) self.old (said result) self.new }
    {
        let holder = self.holder(pass)?;
        self.records.put(holder.take_back());
        Ok(())
    }

    // Lays a pass back. Refused, and the pass comes back: 10, 27, 28.
    pub fn lay_back<R: Bears>(&mut self, pass: Pass<R>) -> Result<(), Kept<Pass<R>>>
        ensures does { Does M.Memory Q.Queue (lay_back R.right pass.lock pass.task) self.old (spent result) self.new }
        ensures back { IfErr result (λ kept. kept.pass ≡ pass) }
    {
        let made = self.lay_back_by(&pass);
        pass.end_or_keep(made)
    }
}
