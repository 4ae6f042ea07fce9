// For each cell the set of the tasks that hold a copy of it.
ghost use Rattle.std.specs.Prelude.{◌≡◌, length};

#[derive(Clone, Copy, Drop)]
pub struct Copies {
    pub(crate) masks: [u64; 7],
    ghost seven: { length masks ≡ 7 },
}
