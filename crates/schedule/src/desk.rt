// Where the calls of a schedule are made: one lock under the cache layer for each pair of memory and
// queue that O may name. The first O that is obeyed picks its lock, and all calls from then on go to it.
use cache::layer::Cache;
use lock::locks::Lock;
use masks::before::Masks;
use packed::word::Packed;
use queue::ring::Ring;
use script::call::{MemoryKind, QueueKind};
use words::array::Words;

// A memory and a queue.
#[derive(Clone, Copy)]
pub(crate) struct Pair {
    pub(crate) memory: MemoryKind,
    pub(crate) queue: QueueKind,
}

// Four locks, and the pair that was chosen.
#[derive(Drop)]
pub(crate) struct Locks<'a> {
    pub(crate) chosen: Option<Pair>,
    pub(crate) words_ring: Lock<'a, Cache<Words>, Ring>,
    pub(crate) words_masks: Lock<'a, Cache<Words>, Masks>,
    pub(crate) packed_ring: Lock<'a, Cache<Packed>, Ring>,
    pub(crate) packed_masks: Lock<'a, Cache<Packed>, Masks>,
}

/// A desk with its locks, over four tables that are lent to it for as long as it lives.
#[derive(Drop)]
pub struct Desk<'a> {
    pub(crate) locks: Locks<'a>,
}
