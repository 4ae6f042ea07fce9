// A task of a lock: its number, and its record as it stands.
ghost use Rattle.std.specs.Prelude.{◌≡◌, ◌≤◌, true, None};
ghost use Rattle.calls.specs.Questions.{advance_refusal};
ghost use Rattle.calls.specs.Records.{in_order};

use calls::record::Record;

// The record is in order.
#[derive(Clone, Copy)]
pub(crate) struct Task {
    pub(crate) number: u32,
    pub(crate) state: Record,
    ghost low: { 1 ≤ number },
    ghost high: { number ≤ 64 },
    ghost ordered: { in_order state ≡ true },
}

// A task that stands before a line, which is yet to be done.
#[derive(Clone, Copy)]
pub(crate) struct ReadyTask {
    pub(crate) task: Task,
    ghost on_line: { advance_refusal task.state ≡ None },
}
