// The costliest task.
ghost use Rattle.std.specs.Prelude.{◌≡◌};
ghost use Rattle.calls.specs.Costs.{IsCostliest, costliest_task};

use crate::record::Record;

// The number of the task whose attempt costs most, the lowest of them, if there is any.
pub fn costliest(tasks: &[Record]) -> Option<usize>
    ensures value { result ≡ costliest_task tasks.now }
    ensures most { IsCostliest tasks.now result }
{
    let mut best = 0;
    let mut most = tasks.first()?.account.cost;
    for (i, task) in tasks.iter().enumerate() {
        if most < task.account.cost {
            best = i;
            most = task.account.cost;
        }
    }
    Some(best + 1)
}
