// A task taken out of each of several sets.
ghost use Rattle.std.specs.Prelude.{◌≡◌, map};
ghost use Rattle.sets.specs.Sets.{taken_out};

use sets::tasks::without_task;

// Takes the task out of each set.
pub(crate) fn strike(sets: &mut [u64], task: u32)
    ensures { sets.new ≡ map (λ set. taken_out set task) sets.old }
{
    for set in sets.iter_mut() {
        *set = without_task(*set, task);
    }
}
