// ribs: an example of the library. Task 1 measures ribs of a wall, tasks 2 and 3 look them up, and task 2 corrects one.
// Each step is told: who did what, where that task is now (L16p1 is line 16.1), and what its attempt has cost.
#![tactic(auto)]

use cache::layer::Cache;
use calls::refusal::Refusal;
use lines::place::{Place, Right};
use lock::locks::Lock;
use packed::word::Packed;
use queue::ring::Ring;
use std::fmt::Display;
use std::io;
use thiserror::Error;

// The memory and the queue are named here and where the lock is made, and nowhere else.
type Wall<'a> = Lock<'a, Cache<Packed>, Ring>;

// fewer lines than these bring a task inside or to rest, unless others keep it waiting
const MOST: u32 = 20;

#[derive(Debug, Drop, Error)]
enum Trouble {
    #[error("refused: {}", .0.number())]
    Refused(#[from] Refusal),
    #[error("others keep task {0} waiting")]
    Waits(u32),
    #[error("printing: {0}")]
    Printing(#[from] io::Error),
}

type Done = Result<(), Trouble>;

fn tell(rt: &impl Print, wall: &Wall<'_>, task: u32, did: &impl Display) -> Done {
    print!(rt; "task {task} {did}: ")?;
    match (wall.place(task)?, wall.right(task)?) {
        (Place::Next(line), _) => print!(rt; "before {line:?}")?,
        (_, Some(Right::Reading)) => print!(rt; "inside, may read")?,
        (_, Some(Right::Writing)) => print!(rt; "inside, may write")?,
        (_, None) => print!(rt; "at rest")?,
    }
    println!(rt; ", cost {}", wall.account(task)?.cost)?;
    Ok(())
}

// Tells a call that may be refused, and goes on: a refused call leaves everything as it was.
fn tell_answer(rt: &impl Print, task: u32, did: &str, answer: Result<(), Refusal>) -> Done {
    match answer {
        Ok(()) => println!(rt; "task {task} {did}: obeyed")?,
        Err(why) => println!(rt; "task {task} {did}: refused {}", why.number())?,
    }
    Ok(())
}

// Tells a step that a task did, and does its lines until it is inside or at rest.
fn advance(rt: &impl Print, wall: &mut Wall<'_>, task: u32, did: &str) -> Done {
    tell(rt, wall, task, &did)?;
    for done in 0..MOST {
        let Place::Next(_) = wall.place(task)? else {
            return tell(rt, wall, task, &format_args!("arrives at advance {done}"));
        };
        wall.advance(task)?;
    }
    Err(Trouble::Waits(task))
}

fn enter(rt: &impl Print, wall: &mut Wall<'_>, task: u32) -> Done {
    wall.begin(task)?;
    advance(rt, wall, task, "begins")
}

fn upgrade(rt: &impl Print, wall: &mut Wall<'_>, task: u32) -> Done {
    wall.upgrade_task(task)?;
    advance(rt, wall, task, "upgrades")
}

fn leave(rt: &impl Print, wall: &mut Wall<'_>, task: u32) -> Done {
    wall.leave_task(task)?;
    advance(rt, wall, task, "leaves")
}

// A task reads a rib: its thickness, or that nobody has measured it.
fn read(rt: &impl Print, wall: &mut Wall<'_>, task: u32, rib: usize) -> Done {
    match wall.read_row(task, rib)? {
        Some(n) => tell(rt, wall, task, &format_args!("reads rib {rib}, {n} um")),
        None => tell(rt, wall, task, &format_args!("reads rib {rib}, absent")),
    }
}

fn run(rt: &impl Print, ribs: &mut [u32]) -> Done {
    let wall = &mut Lock::new(1, Cache::new(Packed::new()), Ring::new(), ribs);
    wall.open_cached(b"WRR")?;
    println!(rt; "open: task 1 is a writer, tasks 2 and 3 are readers")?;

    // The writer measures, reads a rib back, and stays on as a reader.
    enter(rt, wall, 1)?;
    wall.put_row(1, 0, 1200)?;
    wall.put_row(1, 1, 1250)?;
    wall.put_row(1, 2, 980)?;
    tell(rt, wall, 1, &"measures ribs 0, 1 and 2")?;
    read(rt, wall, 1, 1)?;
    wall.downgrade_task(1)?;
    advance(rt, wall, 1, "downgrades")?;

    // The readers come in beside it.
    enter(rt, wall, 2)?;
    enter(rt, wall, 3)?;
    read(rt, wall, 2, 1)?;
    read(rt, wall, 3, 5)?;

    // An upgrade is turned down while others are inside: it is obeyed, but the task goes on with its reading right.
    upgrade(rt, wall, 2)?;
    let put = wall.put_row(2, 1, 1275);
    tell_answer(rt, 2, "corrects rib 1", put)?;
    leave(rt, wall, 1)?;
    leave(rt, wall, 3)?;

    // Task 2 is alone now, and so its upgrade is granted; it has the writing right then, and cannot upgrade once more.
    upgrade(rt, wall, 2)?;
    let again = wall.upgrade_task(2);
    tell_answer(rt, 2, "upgrades once more", again)?;
    wall.put_row(2, 1, 1275)?;
    tell(rt, wall, 2, &"corrects rib 1")?;
    read(rt, wall, 2, 1)?;
    leave(rt, wall, 2)?;
    println!(rt; "task {} has paid most", wall.costliest()?)?;
    Ok(())
}

fn main(rt: HostRuntime) -> Done {
    let mut ribs = [0; 8];
    run(&rt, &mut ribs)?;
    println!(rt; "the ribs afterwards: {ribs:?}")?;
    Ok(())
}
