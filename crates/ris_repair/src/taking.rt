ghost use Rattle.std.specs.Prelude.{◌≡◌, ◌<◌, ◌^◌, ℕ, IfOk, IfSome, IfNone, OnErr};
ghost use Rattle.ris_repair.specs.Changes.{AreQueued, IsNext, NoneWaits};
ghost use Rattle.ris_repair.specs.Stores.{change_at};

use crate::frontiers::Frontier;
use ris_algo::Monotone;
use ris_base::NoMemory;
use ris_forest::Forest;

impl Frontier {
    /// Takes the best vertex that waits, with its number, and settles it. Items of the queue from before a vertex got a
    /// better number are let go. `None` exactly where none waits. After `NoMemory` nothing changed.
    pub(crate) fn take_best<A: Monotone>(
        &mut self,
        forest: &Forest<A>,
    ) -> Result<Option<(u32, u64)>, NoMemory>
        requires { AreQueued (A.spec forest.now.algo).kind (change_at self.old.changes) self.old.queue }
        ensures queued { AreQueued (A.spec forest.now.algo).kind (change_at self.new.changes) self.new.queue }
        ensures next { IfOk result (λ found. IfSome found (λ t. IsNext (A.spec forest.now.algo).kind (change_at self.old.changes) t.0 t.1 (change_at self.new.changes))) }
        ensures small { IfOk result (λ found. IfSome found (λ t. t.1 < 2 ^ 64)) }
        ensures none { IfOk result (λ found. IfNone found (NoneWaits (change_at self.new.changes))) }
        ensures same { IfOk result (λ found. IfNone found ((x : ℕ) → change_at self.new.changes x ≡ change_at self.old.changes x)) }
        ensures unchanged { OnErr result ((x : ℕ) → change_at self.new.changes x ≡ change_at self.old.changes x) }
    {
        while let Some((best, vertex)) = self.queue.pop()? {
            if let Some(number) = self.changes.take(forest.algo(), vertex, best) {
                return Ok(Some((vertex, number)));
            }
        }
        Ok(None)
    }
}
