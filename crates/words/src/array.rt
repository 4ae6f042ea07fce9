// Words: seven 32-bit numbers.
ghost use Rattle.std.specs.Prelude.{◌≡◌, ℕ, ◌≤◌, length, slice_index};
ghost use Rattle.memory.specs.Cells.{zeros};
ghost use Rattle.std.proofs.Common.{rules};

use memory::interface::known_cell;
use memory::refusal::Refusal;
use memory::store::Store;

#[derive(Clone, Copy)]
pub struct Words {
    numbers: [u32; 7],
    ghost seven: { length numbers ≡ 7 },
    ghost small: { (k : ℕ) → slice_index numbers k ≤ 4294967295 },
}

impl Words {
    // All cells at 0.
    pub fn new() -> Words
        ensures { result.numbers ≡ zeros }
    {
        Words { numbers: [0; 7] }
    }
}

impl Store for Words {
    const LIMIT: u32 = u32::MAX;

    ghost LIMIT = { 4294967295 };

    ghost numbers = { λ s. s.numbers };

    ghost seven = { Prim.search rules };

    ghost within = { Prim.search rules };

    fn get(&self, cell: u32) -> Result<u32, Refusal> {
        known_cell(cell)?;
        Ok(self.numbers[cell as usize])
    }

    // Any number of 32 bits is small enough.
    fn set(&mut self, cell: u32, number: u32) -> Result<(), Refusal> {
        known_cell(cell)?;
        self.numbers[cell as usize] = number;
        Ok(())
    }
}
