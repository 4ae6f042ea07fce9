// The one deed of a line, done on the memory or the queue.
ghost use Rattle.std.specs.Prelude.{◌≡◌};
ghost use Rattle.lines.specs.declared.deed.Found.TheVariants.{Nothing as found_nothing, Number as found_number, Answer as found_answer};
ghost use Rattle.lock.specs.Performed.{Performed, Touched};

use calls::refusal::Refusal;
use lines::deed::{Deed, Found};
use memory::interface::Memory;
use memory::operation::{Operation, Reply};
use queue::interface::Queue;

// What a deed found, and its share of the cost.
#[derive(Clone, Copy)]
pub struct Told {
    pub found: Found,
    pub share: u32,
}

// What a memory told, by what it gives: each of the three is another kind of finding.
impl From<Reply<u32>> for Told {
    ghost from_gives = { λ reply told. told ≡ record { found = found_number reply.value; share = reply.share } };

    fn from(reply: Reply<u32>) -> Told {
        Told {
            found: Found::Number(reply.value),
            share: reply.share,
        }
    }
}

impl From<Reply<bool>> for Told {
    ghost from_gives = { λ reply told. told ≡ record { found = found_answer reply.value; share = reply.share } };

    fn from(reply: Reply<bool>) -> Told {
        Told {
            found: Found::Answer(reply.value),
            share: reply.share,
        }
    }
}

impl From<Reply<()>> for Told {
    ghost from_gives = { λ reply told. told ≡ record { found = found_nothing; share = reply.share } };

    fn from(reply: Reply<()>) -> Told {
        Told {
            found: Found::Nothing,
            share: reply.share,
        }
    }
}

// Does the deed for the task. A deed that touches no cell has a share of 0.
#[inline(always)]
pub(crate) fn perform<M: Memory, Q: Queue>(
    memory: &mut M,
    queue: &mut Q,
    task: u32,
    deed: Deed,
) -> Result<Told, Refusal>
    ensures { Performed M.Memory Q.Queue memory.old queue.old task deed result memory.new queue.new }
{
    let found = match deed {
        Deed::Touch(operation) => return touch(memory, task, operation),
        Deed::Join => {
            queue.join(task)?;
            Found::Nothing
        }
        Deed::First => Found::Answer(queue.first(task)?),
        Deed::Quit => {
            queue.quit(task)?;
            Found::Nothing
        }
        Deed::Nothing => Found::Nothing,
    };
    Ok(Told { found, share: 0 })
}

// The deeds on a cell.
#[inline(always)]
fn touch<M: Memory>(memory: &mut M, task: u32, operation: Operation) -> Result<Told, Refusal>
    ensures { Touched M.Memory memory.old task operation result memory.new }
{
    Ok(match operation {
        Operation::Read(cell) => Told::from(memory.read(task, cell)?),
        Operation::Write(cell, number) => Told::from(memory.write(task, cell, number)?),
        Operation::Add(cell, step) => Told::from(memory.add(task, cell, step)?),
        Operation::Swap(cell, expected, new) => {
            Told::from(memory.swap(task, cell, expected, new)?)
        }
    })
}
