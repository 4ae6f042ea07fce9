// The calls of a schedule at the desk.
ghost use Rattle.std.specs.Prelude.{◌≡◌, false, is_some};
ghost use Rattle.script.specs.Calls.{ask};
ghost use Rattle.schedule.specs.Desks.{DeskOver, LocksTell, PairOpens, PairTells};

use crate::answers::open;
use crate::desk::{Desk, Locks, Pair};
use crate::serving::Serve;
use cache::layer::Cache;
use calls::refusal::Refusal;
use listing::answer::Answer;
use lock::locks::Lock;
use masks::before::Masks;
use packed::word::Packed;
use queue::ring::Ring;
use script::call::{Call, MemoryKind, QueueKind};
use words::array::Words;

impl Locks<'_> {
    // Makes the call to the lock of the pair. A match and no `dyn`: the four pairs are all there are, and
    // the contract speaks of each lock by its types.
    fn answer_at(&mut self, pair: Pair, call: Call<'_>) -> Result<Answer, Refusal>
        ensures { PairTells pair self.old (ask call.entry) result self.new }
    {
        match (pair.memory, pair.queue) {
            (MemoryKind::Words, QueueKind::Ring) => self.words_ring.answer(call),
            (MemoryKind::Words, QueueKind::Masks) => self.words_masks.answer(call),
            (MemoryKind::Packed, QueueKind::Ring) => self.packed_ring.answer(call),
            (MemoryKind::Packed, QueueKind::Masks) => self.packed_masks.answer(call),
        }
    }

    // Opens the lock of the pair, and tells how many tasks it then has.
    fn open_at(&mut self, pair: Pair, roles: &[u8]) -> Result<u32, Refusal>
        ensures { PairOpens pair self.old roles.now result self.new }
    {
        match (pair.memory, pair.queue) {
            (MemoryKind::Words, QueueKind::Ring) => open(&mut self.words_ring, roles),
            (MemoryKind::Words, QueueKind::Masks) => open(&mut self.words_masks, roles),
            (MemoryKind::Packed, QueueKind::Ring) => open(&mut self.packed_ring, roles),
            (MemoryKind::Packed, QueueKind::Masks) => open(&mut self.packed_masks, roles),
        }
    }

    // Makes the call where no lock is chosen: an O that is obeyed has chosen its lock. Refused: 10, where it is no O.
    fn answer_closed(&mut self, call: Call<'_>) -> Result<Answer, Refusal>
        requires { is_some self.old.chosen ≡ false }
        ensures { LocksTell self.old (ask call.entry) result self.new }
    {
        let Call::Open(memory, queue, roles) = call else {
            return Err(Refusal::Shut);
        };
        let pair = Pair { memory, queue };
        let tasks = self.open_at(pair, roles)?;
        self.chosen = Some(pair);
        Ok(Answer::Opened(tasks))
    }
}

impl<'a> Desk<'a> {
    /// A desk with four closed locks, each of number 1 and over one of these tables: Words and Ring, Words and Masks, Packed
    /// and Ring, Packed and Masks. None of them is chosen.
    pub fn new(
        words_ring: &'a mut [u32],
        words_masks: &'a mut [u32],
        packed_ring: &'a mut [u32],
        packed_masks: &'a mut [u32],
    ) -> Desk<'a>
        ensures { DeskOver words_ring.entry words_masks.entry packed_ring.entry packed_masks.entry result }
    {
        Desk {
            locks: Locks {
                chosen: None,
                words_ring: Lock::new(1, Cache::new(Words::new()), Ring::new(), words_ring),
                words_masks: Lock::new(1, Cache::new(Words::new()), Masks::new(), words_masks),
                packed_ring: Lock::new(1, Cache::new(Packed::new()), Ring::new(), packed_ring),
                packed_masks: Lock::new(1, Cache::new(Packed::new()), Masks::new(), packed_masks),
            },
        }
    }
}

// Until a lock is chosen.
impl Serve for Locks<'_> {
    ghost serves = { LocksTell };

    ghost done = { λ l. is_some l.chosen };

    fn answer(&mut self, call: Call<'_>) -> Result<Answer, Refusal> {
        self.answer_closed(call)
    }

    fn is_done(&self) -> bool {
        self.chosen.is_some()
    }
}

// In any state.
impl Serve for Desk<'_> {
    ghost serves = { λ d a o e. LocksTell d.locks a o e.locks };

    ghost done = { λ d. false };

    // Makes the call, and tells what a listing says of it. Before an O is obeyed any other call is refused: 10.
    fn answer(&mut self, call: Call<'_>) -> Result<Answer, Refusal> {
        match self.locks.chosen {
            Some(pair) => self.locks.answer_at(pair, call),
            None => self.locks.answer_closed(call),
        }
    }

    fn is_done(&self) -> bool {
        false
    }
}
