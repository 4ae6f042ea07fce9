// The records of up to 64 tasks, by value.
ghost use Rattle.std.specs.Prelude.{◌≡◌, ◌≤◌, true, length};
ghost use Rattle.calls.specs.Records.{in_order};
ghost use Rattle.std.specs.List.{list_all};

use calls::record::Record;

// The first `count` are in use, that of task 1 first. An array and a count, since nothing here is on the
// heap, and the library's `ArrayVec` fills its free places with a default, which no role and no task has.
#[derive(Clone, Copy)]
pub struct Records {
    pub(crate) all: [Record; 64],
    pub(crate) count: u32,
    ghost places: { length all ≡ 64 },
    ghost fits: { count ≤ 64 },
    ghost ordered: { list_all in_order all ≡ true },
}
