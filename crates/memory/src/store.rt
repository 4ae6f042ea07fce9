// Seven numbers from 0 to a limit: what a memory keeps, in whatever form.
ghost use Rattle.std.specs.Prelude.{◌≡◌, ℕ, ◌≤◌, List, length, slice_index};
ghost use Rattle.memory.specs.Calls.{cell_shown};
ghost use Rattle.memory.specs.Stores.{Stored};

use crate::refusal::Refusal;

pub trait Store {
    // the largest number that it keeps
    const LIMIT: u32;

    // the same, as clauses name it
    ghost LIMIT: { ℕ };

    // the seven numbers
    ghost numbers: { Self → List ℕ };

    // A cell's number. Refused: 2.
    fn get(&self, cell: u32) -> Result<u32, Refusal>
        ensures { result ≡ cell_shown (numbers self.now) cell };

    // Makes this the cell's number. Refused: 2, 3.
    fn set(&mut self, cell: u32, number: u32) -> Result<(), Refusal>
        ensures { Stored LIMIT numbers self.old cell number result self.new };

    ghost seven: { (s : Self) → length (numbers s) ≡ 7 };

    ghost within: { (s : Self) (k : ℕ) → slice_index (numbers s) k ≤ LIMIT };
}
