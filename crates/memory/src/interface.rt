// The memory interface: seven numbered cells, each with a number from 0 to a
// limit, and a ceiling on what one operation may cost.
//
// The meaning of a memory is the list of its numbers. The relation `does` tells
// what an obeyed operation of a task leaves and its share of the cost, so that
// code above can speak of the exact shares of one memory and of the bounds of all.
ghost use Rattle.std.specs.Prelude.{◌≡◌, ℕ, ◌≤◌, List, length, slice_index};
ghost use Rattle.memory.specs.declared.operation.Operation.{Operation as Op};
ghost use Rattle.memory.specs.declared.operation.Operation.TheVariants.{Read as reading, Write as writing, Add as adding};
ghost use Rattle.memory.specs.Calls.{Called, Doing, GivesHeld, Kept, SaysWhetherHeld, known_cell, placed, cell_shown};

use crate::cells::COUNT;
use crate::operation::{Reply, Step};
use crate::refusal::Refusal;

// Task, cell and numbers come one by one, as whoever calls has them: any numbers, which are asked here.
pub trait Memory {
    // the largest number that a cell holds
    const LIMIT: u32;

    // the same: the constant is proved equal to the ghost member of its name
    ghost LIMIT: { ℕ };

    // the same, as clauses name it
    ghost limit: { ℕ };

    // the numbers of the seven cells
    ghost cells: { Self → List ℕ };

    // the ceiling: the largest share of an operation
    ghost top: { Self → ℕ };

    // memory before, task, operation, its share of the cost, memory after
    ghost does: { Doing Self };

    // The limit, as a call.
    fn largest() -> u32
        ensures { result ≡ limit };

    // The ceiling.
    fn ceiling(&self) -> u32
        ensures { result ≡ top self.now };

    // A cell's number, as no task's operation. Refused: 2.
    fn show(&self, cell: u32) -> Result<u32, Refusal>
        ensures { result ≡ cell_shown (cells self.now) cell };

    // A cell's number. Refused: 1, 2.
    fn read(&mut self, task: u32, cell: u32) -> Result<Reply<u32>, Refusal>
        ensures { GivesHeld limit cells top does self.old self.new task (reading cell) result };

    // Makes this the cell's number. Refused: 1, 2, 3.
    fn write(&mut self, task: u32, cell: u32, number: u32) -> Result<Reply<()>, Refusal>
        ensures { Called limit cells top does self.old self.new task (writing cell number) tt result };

    // Takes a cell one up or down, and tells what it held before. Refused: 1, 2, 4.
    fn add(&mut self, task: u32, cell: u32, step: Step) -> Result<Reply<u32>, Refusal>
        ensures { GivesHeld limit cells top does self.old self.new task (adding cell step) result };

    // Where the cell holds the expected number, gives it the new one and says yes; else says no. Refused: 1, 2, 3.
    fn swap(
        &mut self,
        task: u32,
        cell: u32,
        expected: u32,
        new: u32,
    ) -> Result<Reply<bool>, Refusal>
        ensures { SaysWhetherHeld limit cells top does self.old self.new task cell expected new result };

    ghost one_limit: { LIMIT ≡ limit };

    ghost seven: { (s : Self) → length (cells s) ≡ 7 };

    ghost within: { (s : Self) (k : ℕ) → slice_index (cells s) k ≤ limit };

    ghost kept: { (s t : Self) (task : ℕ) (op : Op) (share : ℕ) → does s task op share t → Kept cells top s op share t };
}

// The question on the cell.
pub fn known_cell(cell: u32) -> Result<(), Refusal>
    ensures { result ≡ known_cell cell }
{
    if cell >= COUNT {
        return Err(Refusal::Cell);
    }
    Ok(())
}

// The questions on the task and the cell, which all four operations ask first.
pub fn place(task: u32, cell: u32) -> Result<(), Refusal>
    ensures { result ≡ placed task cell }
{
    if task < 1 || task > 64 {
        return Err(Refusal::Task);
    }
    known_cell(cell)
}
