// A drill that every queue has to pass, and the numbers of the refusals. The drill
// is generic, so that each queue is asked the same and has to answer the same.
ghost use Rattle.std.specs.Prelude.{◌≡◌};

use crate::before::Masks;
use queue::interface::Queue;
use queue::refusal::Refusal;
use queue::ring::Ring;
use std::process::Abort;
use std::test::Fail;

// The tasks 0 and 65 are refused, and 1 and 64 are not.
fn edges<Q: Queue>(rt: &impl Abort, queue: &mut Q) {
    assert_eq!(rt; queue.join(0), Err(Refusal::Task));
    assert_eq!(rt; queue.join(65), Err(Refusal::Task));
    assert_eq!(rt; queue.first(0), Err(Refusal::Task));
    assert_eq!(rt; queue.quit(65), Err(Refusal::Task));
    assert_eq!(rt; queue.first(1), Ok(false));
    assert_eq!(rt; queue.quit(64), Err(Refusal::NotOldest));
    assert_eq!(rt; queue.length(), 0);
}

// Three tasks in turn.
fn turns<Q: Queue>(rt: &impl Abort, queue: &mut Q) -> Result<(), Fail> {
    queue.join(64)?;
    queue.join(1)?;
    queue.join(7)?;
    assert_eq!(rt; queue.join(1), Err(Refusal::Waiting));
    assert_eq!(rt; queue.quit(1), Err(Refusal::NotOldest));
    assert_eq!(rt; queue.first(64), Ok(true));
    queue.quit(64)?;
    queue.join(64)?;
    assert_eq!(rt; queue.first(64), Ok(false));
    assert_eq!(rt; queue.first(1), Ok(true));
    assert_eq!(rt; queue.length(), 3);
    queue.quit(1)?;
    queue.quit(7)?;
    queue.quit(64)?;
    assert_eq!(rt; queue.length(), 0);
    Ok(())
}

// All 64 join, and each in turn leaves and joins again.
fn once_round<Q: Queue>(rt: &impl Abort, queue: &mut Q) -> Result<(), Fail> {
    for task in 1..65 {
        queue.join(task)?;
    }
    assert_eq!(rt; queue.length(), 64);
    for task in 1..65 {
        queue.quit(task)?;
        queue.join(task)?;
    }
    assert_eq!(rt; queue.length(), 64);
    assert_eq!(rt; queue.first(1), Ok(true));
    Ok(())
}

fn drill<Q: Queue>(rt: &impl Abort, queue: &mut Q) -> Result<(), Fail> {
    edges(rt, queue);
    turns(rt, queue)?;
    once_round(rt, queue)
}

#[test]
fn ring_keeps_the_order(rt: HostRuntime) -> Result<(), Fail> {
    drill(&rt, &mut Ring::new())
}

#[test]
fn masks_keep_the_order(rt: HostRuntime) -> Result<(), Fail> {
    drill(&rt, &mut Masks::new())
}

// A queue that counts what the one below it refuses: a refused call leaves the list, and the rest of a queue is its own.
#[derive(Drop)]
struct Counting<Q> {
    below: Q,
    refused: u32,
}

impl<Q> Counting<Q> {
    // Counts a call that was refused, and hands on what it answered.
    fn count(&mut self, answer: Result<(), Refusal>) -> Result<(), Refusal>
        ensures answer { result ≡ answer }
        ensures below { self.new.below ≡ self.old.below }
    {
        if answer.is_err() {
            self.refused = self.refused.saturating_add(1);
        }
        answer
    }
}

impl<Q: Queue> Queue for Counting<Q> {
    ghost waiting = { λ s. Q.waiting s.below };

    fn join(&mut self, task: u32) -> Result<(), Refusal> {
        let answer = self.below.join(task);
        self.count(answer)
    }

    fn first(&self, task: u32) -> Result<bool, Refusal> {
        self.below.first(task)
    }

    fn quit(&mut self, task: u32) -> Result<(), Refusal> {
        let answer = self.below.quit(task);
        self.count(answer)
    }

    fn length(&self) -> u32 {
        self.below.length()
    }
}

#[test]
fn a_queue_may_count_its_refusals(rt: HostRuntime) -> Result<(), Fail> {
    let mut queue = Counting {
        below: Ring::new(),
        refused: 0,
    };
    drill(&rt, &mut queue)?;
    assert_eq!(rt; queue.refused, 6);
    Ok(())
}

#[test]
fn refusals_have_their_numbers(rt: HostRuntime) {
    assert_eq!(rt; Refusal::Task.number(), 1);
    assert_eq!(rt; Refusal::Waiting.number(), 5);
    assert_eq!(rt; Refusal::NotOldest.number(), 6);
}
