// The cache layer: over any memory, it keeps for each cell the set of the tasks
// that hold a copy. A read by a holder costs nothing; a write, an add and a swap
// empty the set, also when the swap says no. Numbers, limit and ceiling are
// those of the memory below.
ghost use Rattle.std.specs.Prelude.{◌≡◌};
ghost use Rattle.memory.specs.Cells.{zeros};
ghost use Rattle.cache.specs.Copies.{Cached, copies_counted};
ghost use Rattle.cache.specs.Held.{cached_kept};
ghost use Rattle.std.proofs.Common.{rules};

use crate::copies::Copies;
use memory::interface::{Memory, known_cell, place};
use memory::operation::{Reply, Step};
use memory::refusal::Refusal;
use sets::tasks::{contains, count, with_task};

#[derive(Drop)]
pub struct Cache<M> {
    below: M,
    copies: Copies,
}

impl<M: Memory> Cache<M> {
    // The layer over a memory, with no copies held.
    pub fn new(below: M) -> Cache<M>
        ensures below { result.below ≡ below }
        ensures none { result.copies.masks ≡ zeros }
    {
        Cache {
            below,
            copies: Copies { masks: [0; 7] },
        }
    }

    // How many tasks hold a copy of a cell. Refused: 2.
    // (Asked, and then an index: the question on a cell stands in one place.)
    pub fn holders(&self, cell: u32) -> Result<u32, Refusal>
        ensures { result ≡ copies_counted self.now.copies.masks cell }
    {
        known_cell(cell)?;
        Ok(count(self.copies.masks[cell as usize]))
    }
}

impl<M: Memory> Memory for Cache<M> {
    const LIMIT: u32 = M::LIMIT;

    ghost LIMIT = { M.Memory.LIMIT };

    ghost limit = { M.Memory.limit };

    ghost cells = { λ s. M.Memory.cells s.below };

    ghost top = { λ s. M.Memory.top s.below };

    ghost does = { λ s task op share t. Cached M.Memory.does s.below s.copies.masks task op share t.below t.copies.masks };

    ghost one_limit = { M.Memory.one_limit };

    ghost seven = { Prim.search rules };

    ghost within = { Prim.search rules };

    ghost kept = { λ s t task op share d.
        let m = M.Memory in
        cached_kept m.cells m.top m.does M.Memory.kept s.below t.below s.copies.masks t.copies.masks task op share d };

    fn largest() -> u32 {
        M::largest()
    }

    fn ceiling(&self) -> u32 {
        self.below.ceiling()
    }

    fn show(&self, cell: u32) -> Result<u32, Refusal> {
        self.below.show(cell)
    }

    #[inline(always)]
    fn read(&mut self, task: u32, cell: u32) -> Result<Reply<u32>, Refusal> {
        place(task, cell)?;
        let held = self.copies.masks[cell as usize];
        if contains(held, task) {
            let value = self.below.show(cell)?;
            return Ok(Reply { value, share: 0 });
        }
        let reply = self.below.read(task, cell)?;
        self.copies.masks[cell as usize] = with_task(held, task);
        Ok(reply)
    }

    fn write(&mut self, task: u32, cell: u32, number: u32) -> Result<Reply<()>, Refusal> {
        let reply = self.below.write(task, cell, number)?;
        self.copies.masks[cell as usize] = 0;
        Ok(reply)
    }

    fn add(&mut self, task: u32, cell: u32, step: Step) -> Result<Reply<u32>, Refusal> {
        let reply = self.below.add(task, cell, step)?;
        self.copies.masks[cell as usize] = 0;
        Ok(reply)
    }

    fn swap(
        &mut self,
        task: u32,
        cell: u32,
        expected: u32,
        new: u32,
    ) -> Result<Reply<bool>, Refusal> {
        let reply = self.below.swap(task, cell, expected, new)?;
        self.copies.masks[cell as usize] = 0;
        Ok(reply)
    }
}
