// mesh: a small program over the lock. A writer measures three rows and stays on as a reader; a reader upgrades once the
// writer has left, corrects a row and downgrades.
#![tactic(auto)]

use cache::layer::Cache;
use calls::refusal::Refusal;
use lines::place::{Place, Right};
use lock::locks::Lock;
use masks::before::Masks;
use memory::interface::Memory;
use queue::interface::Queue;
use std::io;
use thiserror::Error;
use words::array::Words;

type Wall<'a> = Lock<'a, Cache<Words>, Masks>;

// more advances than any way to the section or out of it takes, where nobody is in the way
const MOST: u32 = 20;

#[derive(Debug, Drop, Error)]
enum Trouble {
    #[error("refused: {}", .0.number())]
    Refused(#[from] Refusal),
    #[error("task {0} still waits")]
    Waits(u32),
    #[error("printing: {0}")]
    Printing(#[from] io::Error),
}

type Done = Result<(), Trouble>;

// Advances a task of any lock until it is inside or at rest.
fn arrive<M: Memory, Q: Queue>(lock: &mut Lock<'_, M, Q>, task: u32) -> Done {
    for _ in 0..MOST {
        let Place::Next(_) = lock.place(task)? else {
            return Ok(());
        };
        lock.advance(task)?;
    }
    Err(Trouble::Waits(task))
}

fn enter(wall: &mut Wall<'_>, task: u32) -> Done {
    wall.begin(task)?;
    arrive(wall, task)
}

fn leave(wall: &mut Wall<'_>, task: u32) -> Done {
    wall.leave_task(task)?;
    arrive(wall, task)
}

fn downgrade(wall: &mut Wall<'_>, task: u32) -> Done {
    wall.downgrade_task(task)?;
    arrive(wall, task)
}

// Upgrades a task, and prints whether that was granted.
fn upgrade(rt: &impl Print, wall: &mut Wall<'_>, task: u32) -> Done {
    wall.upgrade_task(task)?;
    arrive(wall, task)?;
    let granted = wall.right(task)? == Some(Right::Writing);
    let cost = wall.account(task)?.cost;
    println!(rt; "the upgrade of task {task} is granted: {granted}, cost {cost}")?;
    Ok(())
}

fn look(rt: &impl Print, wall: &mut Wall<'_>, task: u32, row: usize) -> Done {
    let seen = wall.read_row(task, row)?;
    println!(rt; "task {task} sees {seen:?} in row {row}")?;
    Ok(())
}

fn run(rt: &impl Print, rows: &mut [u32]) -> Done {
    let wall = &mut Lock::new(7, Cache::new(Words::new()), Masks::new(), rows);
    wall.open_cached(b"WR")?;

    enter(wall, 1)?;
    for (row, thickness) in [900, 910, 920].into_iter().enumerate() {
        wall.put_row(1, row, thickness)?;
    }
    downgrade(wall, 1)?;
    println!(rt; "task 1 has measured, cost {}", wall.account(1)?.cost)?;

    // Beside task 1 the upgrade of task 2 is turned down.
    enter(wall, 2)?;
    look(rt, wall, 2, 1)?;
    look(rt, wall, 2, 3)?;
    upgrade(rt, wall, 2)?;

    // Alone, it is granted.
    leave(wall, 1)?;
    upgrade(rt, wall, 2)?;
    wall.put_row(2, 1, 915)?;
    downgrade(wall, 2)?;
    look(rt, wall, 2, 1)?;
    leave(wall, 2)?;
    let most = wall.costliest()?;
    println!(rt; "task {most} has paid most, {}", wall.account(most)?.total)?;
    Ok(())
}

fn main(rt: HostRuntime) -> Done {
    let mut rows = [0; 8];
    run(&rt, &mut rows)?;
    println!(rt; "{rows:?}")?;
    Ok(())
}
