// The waiting tasks in their order: what a queue keeps, in whatever form.
ghost use Rattle.std.specs.Prelude.{◌≡◌, ℕ, List, [], ◌∷◌, ◌++◌, length};
ghost use Rattle.std.specs.Bool.{OnTrue, OnFalse};
ghost use Rattle.queue.specs.Waiting.{oldest, rest, can_join};

pub trait Order {
    // the numbers of the waiting tasks, oldest first
    ghost tasks: { Self → List ℕ };

    // Whether the task is the oldest that waits.
    fn is_oldest(&self, task: u32) -> bool
        ensures { result ≡ oldest (tasks self.now) task };

    // The task joins behind the last, if it is one (from 1 to 64) that does not wait yet. Whether it joined.
    fn append(&mut self, task: u32) -> bool
        ensures told { result ≡ can_join (tasks self.old) task }
        ensures joined { OnTrue result (tasks self.new ≡ tasks self.old ++ task ∷ []) }
        ensures same { OnFalse result (self.new ≡ self.old) };

    // The task leaves, if it is the oldest. Whether it left.
    fn remove(&mut self, task: u32) -> bool
        ensures told { result ≡ oldest (tasks self.old) task }
        ensures left { OnTrue result (tasks self.new ≡ rest (tasks self.old)) }
        ensures same { OnFalse result (self.new ≡ self.old) };

    // How many wait.
    fn held(&self) -> u32
        ensures { result ≡ length (tasks self.now) };
}
