// The opening of a lock over the cache layer, with what is known of its costs.
ghost use Rattle.std.specs.Prelude.{IfOk, IsOk, ◌↔◌};
ghost use Rattle.cache.specs.Layers.{cached};
ghost use Rattle.lock.specs.MayOpen.{MayOpen};
ghost use Rattle.lock.specs.Promises.{KeepsCostBound, KeepsExactCosts, KeepsPromises};
ghost use Rattle.lock.specs.View.{Opened};

use crate::locks::Lock;
use cache::layer::Cache;
use calls::refusal::Refusal;
use memory::interface::Memory;
use queue::interface::Queue;

impl<'a, B: Memory, Q: Queue> Lock<'a, Cache<B>, Q> {
    /// Opens the lock as `open` does, with the same promises: the bound on what an attempt costs with no premise, since
    /// the cache layer charges by copies, and what it costs exactly where each operation below costs 1. Refused: 11 to
    /// 16, in this order; a refusal leaves the lock as it was, closed or open.
    pub fn open_cached(&mut self, roles: &[u8]) -> Result<(), Refusal>
        ensures opens { Opened (cached B.Memory) Q.Queue self.old roles.now result self.new }
        ensures opened { IsOk result ↔ MayOpen (cached B.Memory) Q.Queue self.old roles.now }
        ensures promises { IfOk result (λ _. KeepsPromises (cached B.Memory) Q.Queue self.new self.old roles.now) }
        ensures cost_bound { IfOk result (λ _. KeepsCostBound (cached B.Memory) Q.Queue self.new) }
        ensures exact_costs { IfOk result (λ _. KeepsExactCosts B.Memory Q.Queue self.new) }
    {
        self.open(roles)
    }
}
