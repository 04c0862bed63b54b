ghost use Rattle.std.specs.Prelude.{◌≡◌, ◌↔◌, ◌==◌, ℕ, IsTrue, List, ◌∷◌, Some, None, [], true, false, ◌<◌, ◌^◌, OnOk, IfOk};
ghost use Rattle.ris_base.specs.Analysis.{step};
ghost use Rattle.ris_base.specs.Graph.{triple};
ghost use Rattle.ris_base.specs.Safe.{beats};
ghost use Rattle.ris_base.specs.declared.forests.Parent.TheVariants as parent;
ghost use Rattle.ris_forest.specs.Cells.{forest_of, IsSmall};
ghost use Rattle.ris_repair.specs.Changes.{is_better, standing_value, IsImproved, IsSame, KeepsSettled, AreBelow, AreQueuedBut};
ghost use Rattle.ris_repair.specs.Crossing.{crosses, crossed};
ghost use Rattle.ris_repair.specs.Stores.{change_at};

use crate::queues::{Queue, priority};
use crate::stores::{Change, Store};
use ris_algo::Monotone;
use ris_base::{NoMemory, Parent, Triple, Value};
use ris_forest::Forest;
use std::alloc::Global;

/// The vertices that changed, and those of them that wait for their neighbours to be handed out.
#[derive(Drop)]
pub(crate) struct Frontier {
    pub changes: Store,
    pub queue: Queue,
}

/// Whether a number is better than a value; it is better than none.
pub(crate) fn wins<A: Monotone>(algo: &A, number: u64, present: Value) -> bool
    ensures { result ≡ beats (A.spec algo.now).kind number present }
{
    match present {
        Value::Num(there) => algo.better(number, there),
        _ => true,
    }
}

impl Frontier {
    /// A frontier at which nothing changed, for a request: it takes memory of what is touched, and none of the graph's.
    pub(crate) fn new(alloc: Global) -> Frontier
        ensures changes { (x : ℕ) → change_at result.changes x ≡ None }
        ensures queue { result.queue ≡ [] }
    {
        Frontier {
            changes: Store::sparse(alloc),
            queue: Queue::new(alloc),
        }
    }

    /// A frontier at which nothing changed, for a whole graph: it takes memory of the vertex numbers below `size`.
    pub(crate) fn whole(alloc: Global, size: u32) -> Result<Frontier, NoMemory>
        ensures changes { IfOk result (λ frontier. (x : ℕ) → change_at frontier.changes x ≡ None) }
        ensures queue { IfOk result (λ frontier. frontier.queue ≡ []) }
    {
        let changes = Store::dense(alloc, size)?;
        let queue = Queue::whole(alloc)?;
        Ok(Frontier { changes, queue })
    }

    /// Whether the vertex `end` isn't settled and this number is better than what it has.
    #[inline(always)]
    fn takes<A: Monotone>(&self, forest: &Forest<A>, end: u32, number: u64) -> bool
        ensures { result ≡ is_better (A.spec forest.now.algo).kind (forest_of forest.now.cells) (change_at self.now.changes) end number }
    {
        match self.changes.get(end) {
            Some(change) => wins(forest.algo(), number, change.value) && !change.settled,
            None => wins(forest.algo(), number, forest.value(end as u64)),
        }
    }

    /// Gives the vertex `end` this number, which is better than what it has, and this parent, and lets it wait.
    #[inline(never)]
    fn improve<A: Monotone>(
        &mut self,
        forest: &Forest<A>,
        end: u32,
        number: u64,
        parent: Parent,
    ) -> Result<(), NoMemory>
        requires { is_better (A.spec forest.now.algo).kind (forest_of forest.now.cells) (change_at self.old.changes) end number ≡ true }
        ensures improved { OnOk result (IsImproved (A.spec forest.now.algo).kind (change_at self.old.changes) self.old.queue end number parent (change_at self.new.changes) self.new.queue) }
        ensures settled { KeepsSettled (change_at self.old.changes) (change_at self.new.changes) }
        ensures below { (n : ℕ) → end < n → AreBelow n (change_at self.old.changes) → AreBelow n (change_at self.new.changes) }
    {
        let change = Change {
            value: Value::Num(number),
            parent,
            settled: false,
        };
        self.changes.insert(end, change)?;
        self.queue.push(priority(forest.algo(), number), end)?;
        Ok(())
    }

    /// Gives the vertex `end` this number and this parent, where it isn't settled and the number is better than what it
    /// has, and lets it wait.
    #[inline(always)]
    pub(crate) fn offer<A: Monotone>(
        &mut self,
        forest: &Forest<A>,
        end: u32,
        number: u64,
        parent: Parent,
    ) -> Result<(), NoMemory>
        ensures improved { is_better (A.spec forest.now.algo).kind (forest_of forest.now.cells) (change_at self.old.changes) end number ≡ true →
            OnOk result (IsImproved (A.spec forest.now.algo).kind (change_at self.old.changes) self.old.queue end number parent (change_at self.new.changes) self.new.queue) }
        ensures same { is_better (A.spec forest.now.algo).kind (forest_of forest.now.cells) (change_at self.old.changes) end number ≡ false →
            OnOk result (IsSame (change_at self.old.changes) self.old.queue (change_at self.new.changes) self.new.queue) }
        ensures settled { KeepsSettled (change_at self.old.changes) (change_at self.new.changes) }
        ensures below { (n : ℕ) → end < n → AreBelow n (change_at self.old.changes) → AreBelow n (change_at self.new.changes) }
    {
        if self.takes(forest, end, number) {
            self.improve(forest, end, number, parent)?;
        }
        Ok(())
    }

    /// Gives a vertex this change, and lets it wait where it has a number.
    pub(crate) fn put<A: Monotone>(
        &mut self,
        forest: &Forest<A>,
        vertex: u32,
        change: Change,
    ) -> Result<(), NoMemory>
        ensures here { OnOk result (change_at self.new.changes vertex ≡ Some change) }
        ensures others { OnOk result ((y : ℕ) → (vertex == y) ≡ false → change_at self.new.changes y ≡ change_at self.old.changes y) }
        ensures queued { OnOk result ((xs : List ℕ) → AreQueuedBut (A.spec forest.now.algo).kind (vertex ∷ xs) (change_at self.old.changes) self.old.queue
            → AreQueuedBut (A.spec forest.now.algo).kind xs (change_at self.new.changes) self.new.queue) }
    {
        self.changes.insert(vertex, change)?;
        if let Value::Num(number) = change.value {
            self.queue.push(priority(forest.algo(), number), vertex)?;
        }
        Ok(())
    }

    /// Whether a vertex stands as it was.
    pub(crate) fn stands(&self, x: u32) -> bool
        ensures { IsTrue result ↔ (change_at self.now.changes x ≡ None) }
    {
        self.changes.get(x).is_none()
    }

    /// The value of a vertex that stands as it was, and absent for one that changed.
    fn standing<A>(&self, forest: &Forest<A>, x: u32) -> Value
        ensures value { result ≡ standing_value ((forest_of forest.now.cells).value x) (change_at self.now.changes x) }
        ensures small { IsSmall result }
    {
        if self.stands(x) {
            forest.value(x as u64)
        } else {
            Value::Absent
        }
    }

    /// Offers the vertex `end` the step along a triple from the number of the vertex `from`, where that one stands.
    pub(crate) fn cross<A: Monotone>(
        &mut self,
        forest: &Forest<A>,
        from: u32,
        end: u32,
        along: Triple,
    ) -> Result<(), NoMemory>
        requires { along.weight < 2 ^ 36 }
        ensures improved { crosses (A.spec forest.now.algo).kind (forest_of forest.now.cells) (change_at self.old.changes)
            (standing_value ((forest_of forest.now.cells).value from) (change_at self.old.changes from)) along.weight end ≡ true →
            OnOk result (IsImproved (A.spec forest.now.algo).kind (change_at self.old.changes) self.old.queue end
            (crossed (A.spec forest.now.algo).kind (standing_value ((forest_of forest.now.cells).value from) (change_at self.old.changes from)) along.weight)
            (parent.From from along.source along.target along.weight) (change_at self.new.changes) self.new.queue) }
        ensures same { crosses (A.spec forest.now.algo).kind (forest_of forest.now.cells) (change_at self.old.changes)
            (standing_value ((forest_of forest.now.cells).value from) (change_at self.old.changes from)) along.weight end ≡ false →
            OnOk result (IsSame (change_at self.old.changes) self.old.queue (change_at self.new.changes) self.new.queue) }
    {
        match self.standing(forest, from) {
            Value::Num(number) => {
                let stepped = forest.algo().step(number, along.weight);
                let parent = Parent::From {
                    vertex: from,
                    source: along.source,
                    target: along.target,
                    weight: along.weight,
                };
                self.offer(forest, end, stepped, parent)?;
                Ok(())
            }
            _ => Ok(()),
        }
    }
}
