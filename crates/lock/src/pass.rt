// Passes: the right of a task inside as a value that somebody holds. No other crate can make, copy or
// drop one, so each is laid back or spent before its holder ends.
ghost use Rattle.std.specs.Prelude.{◌≡◌};
ghost use Rattle.lines.specs.declared.place.Right.{Right as SomeRight};
ghost use Rattle.lines.specs.declared.place.Right.TheVariants.{Reading as reading, Writing as writing};

use calls::refusal::Refusal;
use lines::place::Right;
use std::marker::PhantomData;

// Which right passes of a type bear.
pub trait Bears {
    // the right
    ghost right: { SomeRight };

    // The same, as a call.
    fn which() -> Right
        ensures { result ≡ right };
}

// Of passes that bear the reading right.
pub struct Reading;

// Of passes that bear the writing right.
pub struct Writing;

impl Bears for Reading {
    ghost right = { reading };

    fn which() -> Right {
        Right::Reading
    }
}

impl Bears for Writing {
    ghost right = { writing };

    fn which() -> Right {
        Right::Writing
    }
}

// The right of a task of a lock.
pub struct Pass<R> {
    pub(crate) lock: u32,
    pub(crate) task: u32,
    of: PhantomData<R>,
}

pub type ReadPass = Pass<Reading>;

pub type WritePass = Pass<Writing>;

// A pass that comes back from a refused call, and why.
pub struct Kept<P> {
    pub pass: P,
    pub why: Refusal,
}

impl<R> Pass<R> {
    // Of this task of the lock with this number.
    pub(crate) fn new(lock: u32, task: u32) -> Pass<R>
        ensures lock { result.lock ≡ lock }
        ensures task { result.task ≡ task }
    {
        Pass {
            lock,
            task,
            of: PhantomData,
        }
    }

    // Only this crate can take a pass apart.
    pub(crate) fn end(self) {
        let Pass {
            lock: _,
            task: _,
            of: _,
        } = self;
    }
}
