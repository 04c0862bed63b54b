ghost use Rattle.std.specs.Prelude.{◌≡◌, ◌≤◌, ◌+◌, ◌∷◌, [], OnOk, OnErr, IfOk, IfSome, IfNone, None, IsPermutation, length};
ghost use Rattle.std.specs.List.{All};
ghost use Rattle.ris_repair.specs.Priority.{priority_of};

use crate::lined_piles::LinedPile;
use crate::piles::Pile;
use ris_algo::Monotone;
use ris_base::NoMemory;
use ris_rows::Glance;
use std::alloc::Global;
use std::marker::Model;

/// The priority of a number: the better the number, the greater.
pub(crate) fn priority<A: Monotone>(algo: &A, number: u64) -> u64
    ensures { result ≡ priority_of (A.spec algo.now).kind number }
{
    if algo.better(1, 0) {
        number
    } else {
        u64::MAX - number
    }
}

/// Vertices that wait, each with a priority. Those with the greatest priority are taken first. Those of a request, which
/// are few, wait in a pile alone; those of a whole graph in lines before a pile, which take memory of their own.
#[derive(Drop)]
pub(crate) struct Queue {
    few: Pile,
    whole: Option<Box<LinedPile>>,
}

impl Model for Queue {
    ghost use Rattle.std.specs.Prelude.{List, ℕ};
    ghost use Rattle.std.specs.Option.{option_map_or};

    ghost Value = { List (ℕ × ℕ) };

    ghost view = { λ q. option_map_or (λ whole. whole.value) q.whole q.few };
}

impl Queue {
    /// A queue in which nothing waits, for a request. It takes no memory before the first vertex, and then at once for some.
    pub(crate) fn new(alloc: Global) -> Queue
        ensures { result ≡ [] }
    {
        Queue {
            few: Pile::new(alloc),
            whole: None,
        }
    }

    /// A queue in which nothing waits, for a whole graph.
    pub(crate) fn whole(alloc: Global) -> Result<Queue, NoMemory>
        ensures { IfOk result (λ queue. queue ≡ []) }
    {
        let lined = LinedPile::new(alloc)?;
        Ok(Queue {
            few: Pile::new(alloc),
            whole: Some(Box::new(alloc, lined)?),
        })
    }

    /// One vertex more waits. After `NoMemory` the same ones wait.
    #[inline(always)]
    pub(crate) fn push(&mut self, priority: u64, vertex: u32) -> Result<(), NoMemory>
        ensures items { OnOk result (IsPermutation ((priority, vertex) ∷ self.old) self.new) }
        ensures unchanged { OnErr result (IsPermutation self.old self.new) }
    {
        match &mut self.whole {
            Some(whole) => whole.push(priority, vertex),
            None => self.few.push(priority, vertex),
        }
    }

    /// A vertex that is likely to be taken soon, as `LinedPile::coming` has it. `None` for a request, whose rows are few.
    pub(crate) fn coming(&self, place: usize) -> Option<u32> {
        self.whole.as_ref()?.coming(place)
    }

    /// Keeps what was seen of the rows of vertices of a whole graph, as `LinedPile::keep` does.
    #[inline(always)]
    pub(crate) fn keep(&mut self, glance: Glance)
        ensures { self.new ≡ self.old }
    {
        if let Some(whole) = &mut self.whole {
            whole.keep(glance);
        }
    }

    /// Takes a vertex of the greatest priority. `None` exactly where nothing waits. After `NoMemory` the same ones wait.
    #[inline(always)]
    pub(crate) fn pop(&mut self) -> Result<Option<(u64, u32)>, NoMemory>
        ensures items { IfOk result (λ found. IfSome found (λ top. IsPermutation self.old (top ∷ self.new))) }
        ensures best { IfOk result (λ found. IfSome found (λ top. All (λ item. item.0 ≤ top.0) self.new)) }
        ensures len { IfOk result (λ found. IfSome found (λ top. length self.new + 1 ≡ length self.old)) }
        ensures none { IfOk result (λ found. IfNone found (self.old ≡ [])) }
        ensures none_new { IfOk result (λ found. IfNone found (self.new ≡ [])) }
        ensures unchanged { OnErr result (IsPermutation self.old self.new) }
    {
        match &mut self.whole {
            Some(whole) => whole.pop(),
            None => self.few.pop_above(None),
        }
    }
}
