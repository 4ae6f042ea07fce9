// Packed: one 32-bit number with four bits for each of seven cells, that of cell 0
// lowest. A field is read by a shift and a mask, and replaced under a mask that
// spares the other six.
ghost use Rattle.std.specs.Prelude.{◌≡◌};
ghost use Rattle.memory.specs.Cells.{zeros};
ghost use Rattle.packed.specs.Fields.{fields};
ghost use Rattle.packed.specs.Small.{fields_small};
ghost use Rattle.std.proofs.Common.{rules};

use memory::interface::known_cell;
use memory::refusal::Refusal;
use memory::store::Store;

// the bits of a field
const WIDTH: u32 = 4;

// a field of ones, the largest number
const ONES: u32 = 15;

#[derive(Clone, Copy)]
pub struct Packed {
    bits: u32,
}

impl Packed {
    // All cells at 0.
    pub fn new() -> Packed
        ensures { fields result.bits ≡ zeros }
    {
        Packed { bits: 0 }
    }
}

impl Store for Packed {
    const LIMIT: u32 = ONES;

    ghost LIMIT = { 15 };

    ghost numbers = { λ s. fields s.bits };

    ghost seven = { Prim.search rules };

    ghost within = { λ s k. fields_small s.bits k };

    fn get(&self, cell: u32) -> Result<u32, Refusal> {
        known_cell(cell)?;
        Ok((self.bits >> (WIDTH * cell)) & ONES)
    }

    fn set(&mut self, cell: u32, number: u32) -> Result<(), Refusal> {
        known_cell(cell)?;
        if number > ONES {
            return Err(Refusal::Number);
        }
        let others = !(ONES << (WIDTH * cell));
        self.bits = (self.bits & others) | (number << (WIDTH * cell));
        Ok(())
    }
}
