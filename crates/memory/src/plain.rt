// A store of seven numbers is a memory, each operation at a share of 1.
ghost use Rattle.std.specs.Prelude.{◌≡◌};
ghost use Rattle.memory.specs.Operations.{after};
ghost use Rattle.std.proofs.Common.{rules};

use crate::interface::{Memory, place};
use crate::operation::{Reply, Step};
use crate::refusal::Refusal;
use crate::store::Store;

impl<S: Store> Memory for S {
    const LIMIT: u32 = S::LIMIT;

    ghost LIMIT = { S.LIMIT };

    ghost limit = { S.LIMIT };

    ghost cells = { S.numbers };

    ghost top = { λ _. 1 };

    ghost does = { λ s _ op share t. (S.numbers t ≡ after op (S.numbers s)) × (share ≡ 1) };

    ghost one_limit = { Prim.search rules };

    ghost seven = { S.seven };

    ghost within = { S.within };

    ghost kept = { Prim.search rules };

    fn largest() -> u32 {
        S::LIMIT
    }

    fn ceiling(&self) -> u32 {
        1
    }

    fn show(&self, cell: u32) -> Result<u32, Refusal> {
        self.get(cell)
    }

    fn read(&mut self, task: u32, cell: u32) -> Result<Reply<u32>, Refusal> {
        place(task, cell)?;
        let value = self.get(cell)?;
        Ok(Reply { value, share: 1 })
    }

    fn write(&mut self, task: u32, cell: u32, number: u32) -> Result<Reply<()>, Refusal> {
        place(task, cell)?;
        self.set(cell, number)?;
        Ok(Reply {
            value: (),
            share: 1,
        })
    }

    fn add(&mut self, task: u32, cell: u32, step: Step) -> Result<Reply<u32>, Refusal> {
        place(task, cell)?;
        let old = self.get(cell)?;
        let new = step.taken(old, S::LIMIT).ok_or(Refusal::Sum)?;
        self.set(cell, new)?;
        Ok(Reply {
            value: old,
            share: 1,
        })
    }

    fn swap(
        &mut self,
        task: u32,
        cell: u32,
        expected: u32,
        new: u32,
    ) -> Result<Reply<bool>, Refusal> {
        place(task, cell)?;
        if expected > S::LIMIT || new > S::LIMIT {
            return Err(Refusal::Number);
        }
        let same = self.get(cell)? == expected;
        if same {
            self.set(cell, new)?;
        }
        Ok(Reply {
            value: same,
            share: 1,
        })
    }
}
