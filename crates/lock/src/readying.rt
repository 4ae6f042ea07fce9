// A task made ready for the line of a call: it stands before that line, and a pass that was spent is no longer out.
ghost use Rattle.std.specs.Prelude.{◌≡◌, true};
ghost use Rattle.lines.specs.declared.place.Right.TheVariants.{Reading as reading, Writing as writing};
ghost use Rattle.calls.specs.Questions.{advance_refusal, begin_refusal, out_for, upgrade_refusal};
ghost use Rattle.calls.specs.Records.{begun, downgrading, leaving, upgrading};
ghost use Rattle.lock.specs.Tasks.{Readied};

use crate::pass::Bears;
use crate::task::{ReadyTask, Task};
use calls::refusal::Refusal;
use lines::place::{Line, Place};

// Which pass is out to a task is asked for in a clause of each call that spends one, and is no invariant of a
// type, since that could not speak of the right of a type parameter.
impl Task {
    // An attempt begins: line 16 for a reader and 0.1 for a writer. Refused: 21, 22.
    #[tactic(auto, using(calls::proofs::Sound::begun_in_order))]
    pub(crate) fn ready_to_begin(self) -> Result<ReadyTask, Refusal>
        ensures { Readied (begin_refusal self.state) self.number (begun self.state) result }
    {
        let Place::Rest = self.state.track.place else {
            return Err(Refusal::Busy);
        };
        if self.state.account.finished >= 1000000 {
            return Err(Refusal::Finished);
        }
        let mut state = self.state;
        state.begin();
        Ok(ReadyTask {
            task: Task {
                number: self.number,
                state,
            },
        })
    }

    // The next line. Refused: 23.
    pub(crate) fn ready_to_advance(self) -> Result<ReadyTask, Refusal>
        ensures { Readied (advance_refusal self.state) self.number self.state result }
    {
        match self.state.track.place {
            Place::Next(_) => Ok(ReadyTask { task: self }),
            Place::Rest | Place::Inside => Err(Refusal::OffLine),
        }
    }

    // An upgrade: line 27.1. Refused: 29.
    #[tactic(auto, using(calls::proofs::Sound::upgrading_in_order))]
    pub(crate) fn ready_to_upgrade(self) -> Result<ReadyTask, Refusal>
        requires { out_for self.state.out reading ≡ true }
        ensures { Readied (upgrade_refusal self.state) self.number (upgrading self.state) result }
    {
        if self.state.account.u >= 1000 {
            return Err(Refusal::Upgrades);
        }
        let mut state = self.state;
        state.account.u += 1;
        state.track.place = Place::Next(Line::L27p1);
        state.out = None;
        Ok(ReadyTask {
            task: Task {
                number: self.number,
                state,
            },
        })
    }

    // A downgrade: line 25.1 or 28.1.
    #[tactic(auto, using(calls::proofs::Sound::downgrading_in_order))]
    pub(crate) fn ready_to_downgrade(self) -> ReadyTask
        requires { out_for self.state.out writing ≡ true }
        ensures number { result.task.number ≡ self.number }
        ensures state { result.task.state ≡ downgrading self.state }
    {
        let mut state = self.state;
        state.account.g += 1;
        state.track.place = Place::Next(state.track.downgrade_line());
        state.out = None;
        ReadyTask {
            task: Task {
                number: self.number,
                state,
            },
        }
    }

    // A leave with a pass of this type: line 7, 23, 26.1 or 28.1.
    #[tactic(auto, using(calls::proofs::Sound::leaving_in_order))]
    pub(crate) fn ready_to_leave<R: Bears>(self) -> ReadyTask
        requires { out_for self.state.out R.right ≡ true }
        ensures number { result.task.number ≡ self.number }
        ensures state { result.task.state ≡ leaving self.state }
    {
        let mut state = self.state;
        state.track.place = Place::Next(state.track.leave_line());
        state.out = None;
        ReadyTask {
            task: Task {
                number: self.number,
                state,
            },
        }
    }
}
