// Sets of tasks, asked with any number: one that is no task's is in no set, and
// neither put in nor taken out. A set is a bare number and no struct: where the cache
// layer and Masks hold an array of a struct with `impl Model`, code above that moves
// them gets no proof.
ghost use Rattle.std.specs.Prelude.{◌≡◌, ◌+◌, ◌-◌, ◌^◌, true, false};
ghost use Rattle.sets.specs.Sets.{holds, is_task, bit, contained, put_in, taken_out, count_to, Joins};

// The bit of the task, none where the number is no task's.
fn bit(task: u32) -> u64
    ensures { result ≡ bit task }
{
    if task >= 1 && task <= 64 {
        1 << (task - 1)
    } else {
        0
    }
}

// Whether the task is in the set.
pub fn contains(set: u64, task: u32) -> bool
    ensures { result ≡ contained set task }
{
    set & bit(task) != 0
}

// The set with the task put in.
pub fn with_task(set: u64, task: u32) -> u64
    ensures value { result ≡ put_in set task }
    ensures joins { is_task task ≡ true → Joins set task result }
    ensures sum { is_task task ≡ true → holds set task ≡ false → result ≡ set + 2 ^ (task - 1) }
{
    set | bit(task)
}

// The set with the task taken out.
pub fn without_task(set: u64, task: u32) -> u64
    ensures { result ≡ taken_out set task }
{
    set & !bit(task)
}

// How many tasks are in the set.
pub fn count(set: u64) -> u32
    ensures { result ≡ count_to 64 set }
{
    set.count_ones()
}
