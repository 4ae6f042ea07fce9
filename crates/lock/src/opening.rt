// How a lock is made, closed, and how it is opened to its tasks.
ghost use Rattle.std.specs.Prelude.{◌≡◌, ◌≤◌, true, map, length, IfOk, IsOk, MatchResult, ◌↔◌};
ghost use Rattle.calls.specs.Opening.{Wrote, enlisted, opening_writes, role_told};
ghost use Rattle.std.specs.List.{list_all};
ghost use Rattle.lines.specs.Roles.{is_role};
ghost use Rattle.lock.specs.Answers.{Asked};
ghost use Rattle.lock.specs.MayOpen.{MayOpen, HasRoom};
ghost use Rattle.lock.specs.Promises.{KeepsCostBoundByCopies, KeepsPromises};
ghost use Rattle.lock.specs.View.{Opened, closed_over, open_refused, records_of, view};

use crate::locks::Lock;
use crate::records::Records;
use calls::record::Record;
use calls::refusal::Refusal;
use lines::place::Role;
use memory::cells::{C, D, GATE, PERMIT, U, V, X};
use memory::interface::Memory;
use queue::interface::Queue;

// The role that a byte says: R a reader, W a writer. Refused: 13.
fn role(byte: u8) -> Result<Role, Refusal>
    ensures { result ≡ role_told byte }
{
    match byte {
        b'R' => Ok(Role::Reader),
        b'W' => Ok(Role::Writer),
        _ => Err(Refusal::Role),
    }
}

fn is_role(byte: u8) -> bool
    ensures { result ≡ is_role byte }
{
    role(byte).is_ok()
}

// Whether each byte is a role, R or W.
fn all_roles(roles: &[u8]) -> bool
    ensures { result ≡ list_all is_role roles.now }
{
    roles.iter().all(|byte| is_role(*byte))
}

// The record of a task with this role that never began. A byte that is no role stands for a reader.
fn enlist(byte: u8) -> Record
    ensures { result ≡ enlisted byte }
{
    Record::new(role(byte).unwrap_or(Role::Reader))
}

impl Records {
    // Tasks with these roles, task 1 first, in place of those before. (In place, since 64 records are a lot to make and copy.)
    #[tactic(auto, using(crate::proofs::Opened::enlist_more, crate::proofs::Opened::enlisted_all))]
    fn enlist_all(&mut self, roles: &[u8])
        requires { length roles.now ≤ 64 }
        ensures { records_of self.new ≡ map enlisted roles.now }
    {
        // by index: over `iter_mut` the proof of what the array is afterwards did not close
        for (i, byte) in roles.iter().enumerate() {
            self.all[i] = enlist(*byte);
        }
        self.count = roles.len() as u32;
    }
}

// Task 1 puts the cells in order. A memory with a limit of at least 2 refuses none of this.
fn set_cells<M: Memory>(memory: &mut M) -> Result<(), memory::refusal::Refusal>
    requires { 2 ≤ M.Memory.limit }
    ensures { MatchResult result (λ _. Wrote M.Memory.does memory.old opening_writes memory.new) (λ _. ⊥) }
{
    memory.write(1, C, 0)?;
    memory.write(1, D, 0)?;
    memory.write(1, GATE, 0)?;
    memory.write(1, X, 1)?;
    memory.write(1, PERMIT, 1)?;
    memory.write(1, U, 0)?;
    memory.write(1, V, 0)?;
    Ok(())
}

impl<'a, M: Memory, Q: Queue> Lock<'a, M, Q> {
    // A closed lock with this number, over a memory, a queue and a lent table.
    pub fn new(number: u32, memory: M, queue: Q, table: &'a mut [u32]) -> Lock<'a, M, Q>
        ensures state { view M.Memory Q.Queue result ≡ closed_over M.Memory Q.Queue number memory queue table.old }
        ensures number { result.number ≡ number }
        ensures table { result.table.now ≡ table.old }
        ensures memory { result.memory ≡ memory }
        ensures queue { result.queue ≡ queue }
        ensures lent { result.table.ghost_name ≡ table.entry.ghost_name }
    {
        Lock {
            number,
            memory,
            queue,
            records: Records {
                all: [Record::new(Role::Reader); 64],
                count: 0,
            },
            table,
        }
    }

    // The questions before opening.
    #[tactic(auto, using(crate::proofs::Opened::each_role))]
    fn ask_open(&self, roles: &[u8]) -> Result<(), Refusal>
        ensures { Asked (open_refused M.Memory Q.Queue self.now roles.now) result (HasRoom M.Memory.limit roles.now) }
    {
        if self.is_open() {
            return Err(Refusal::Opened);
        }
        let n = roles.len();
        if n < 1 || n > 64 {
            return Err(Refusal::Roles);
        }
        if !all_roles(roles) {
            return Err(Refusal::Role);
        }
        let largest = M::largest();
        if largest < 2 || (largest as usize) < n {
            return Err(Refusal::Limit);
        }
        if self.memory.ceiling() > 1000 {
            return Err(Refusal::Ceiling);
        }
        if self.queue.length() != 0 {
            return Err(Refusal::Queued);
        }
        Ok(())
    }

    /// Opens the lock to tasks with these roles, a byte R or W for each, and promises what holds from then on, after any
    /// calls; the bound on what an attempt costs where the memory charges by copies, as the cache layer does. Refused: 11
    /// to 16, in this order; a refusal leaves the lock as it was, closed or open. (Bytes, since whoever calls may have any:
    /// those that are no roles are refused.)
    pub fn open(&mut self, roles: &[u8]) -> Result<(), Refusal>
        ensures opens { Opened M.Memory Q.Queue self.old roles.now result self.new }
        ensures opened { IsOk result ↔ MayOpen M.Memory Q.Queue self.old roles.now }
        ensures promises { IfOk result (λ _. KeepsPromises M.Memory Q.Queue self.new self.old roles.now) }
        ensures cost_bound { IfOk result (λ _. KeepsCostBoundByCopies M.Memory Q.Queue self.new) }
    {
        self.ask_open(roles)?;
        set_cells(&mut self.memory)?;
        self.records.enlist_all(roles);
        Ok(())
    }
}
