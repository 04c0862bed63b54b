ghost use Rattle.std.specs.Prelude.{◌≡◌, ◌<◌, ◌≤◌, ◌∷◌, ℕ, [], false, slice_index_or, OnOk, OnErr, IfOk, IfSome, IfNone, IsTrue, IsPermutation};
ghost use Rattle.std.specs.BinaryHeap.{IsHeap, heap_items, heap_len};
ghost use Rattle.std.specs.List.{All};
ghost use Rattle.std.specs.Ordering.{nat_cmp, ordering_then};
ghost use Rattle.ris_repair.specs.Queues.{is_above};

use crate::queue_lines::is_above;
use crate::radix::Radix;
use ris_base::NoMemory;
use std::alloc::Global;
use std::collections::BinaryHeap;
use std::marker::Model;

/// For how many vertices the heap makes room at once, when it gets its first one.
const HEAP_ROOM: usize = 16;

/// Vertices that wait in no order, each with a priority. Those that the radix heap doesn't take in wait in a binary heap.
#[derive(Drop)]
pub(crate) struct Pile {
    radix: Radix,
    heap: BinaryHeap<(u64, u32)>,
}

impl Model for Pile {
    ghost use Rattle.std.specs.Prelude.{List, ℕ, ◌++◌};
    ghost use Rattle.std.specs.BinaryHeap.{IsHeap, heap_items};
    ghost use Rattle.std.specs.Ordering.{nat_cmp, ordering_then};

    ghost Value = { List (ℕ × ℕ) };

    ghost view = { λ pile. pile.radix ++ heap_items pile.heap };

    ghost invariant = { λ pile. IsHeap (λ x y. ordering_then (nat_cmp x.0 y.0) (nat_cmp x.1 y.1)) (heap_items pile.heap) };
}

/// The greatest priority in a heap, where that is above the bound, if there is one. `None` exactly where it isn't.
fn top_above(heap: &BinaryHeap<(u64, u32)>, bound: Option<u64>) -> Option<u64>
    requires { IsHeap (λ x y. ordering_then (nat_cmp x.0 y.0) (nat_cmp x.1 y.1)) (heap_items heap.now) }
    ensures first { IfSome result (λ top. (0 < heap_len heap.now) × ((d : ℕ × ℕ) → (slice_index_or (heap_items heap.now) 0 d).0 ≡ top)) }
    ensures best { IfSome result (λ top. All (λ item. item.0 ≤ top) (heap_items heap.now)) }
    ensures above { IfSome result (λ top. IsTrue (is_above bound top)) }
    ensures none { IfNone result (All (λ item. is_above bound item.0 ≡ false) (heap_items heap.now)) }
{
    match heap.peek() {
        Some(top) if is_above(bound, top.0) => Some(top.0),
        _ => None,
    }
}

impl Pile {
    /// A pile in which nothing waits, for few vertices: all will wait in the binary heap. It takes no memory before the first
    /// one, and then at once for some.
    pub(crate) fn new(alloc: Global) -> Pile
        ensures { result ≡ [] }
    {
        Pile {
            radix: Radix::shut(alloc),
            heap: BinaryHeap::new(alloc),
        }
    }

    /// A pile in which nothing waits, for vertices of a whole graph: its radix heap is open.
    pub(crate) fn whole(alloc: Global) -> Result<Pile, NoMemory>
        ensures { IfOk result (λ pile. pile ≡ []) }
    {
        Ok(Pile {
            radix: Radix::open(alloc)?,
            heap: BinaryHeap::new(alloc),
        })
    }

    /// Makes room in the heap for some vertices at once, where none waits there.
    fn make_room(&mut self) -> Result<(), NoMemory>
        ensures { self.new ≡ self.old }
    {
        if self.heap.is_empty() {
            self.heap.reserve(HEAP_ROOM)?;
        }
        Ok(())
    }

    /// One vertex more waits. After `NoMemory` the same ones wait.
    pub(crate) fn push(&mut self, priority: u64, vertex: u32) -> Result<(), NoMemory>
        ensures items { OnOk result (IsPermutation ((priority, vertex) ∷ self.old) self.new) }
        ensures unchanged { OnErr result (IsPermutation self.old self.new) }
    {
        if !self.radix.push(priority, vertex)? {
            self.make_room()?;
            self.heap.push((priority, vertex))?;
        }
        Ok(())
    }

    /// A vertex of the radix heap that is likely to be taken soon, as `Radix::coming` has it.
    pub(crate) fn coming(&self, place: usize) -> Option<u32> {
        self.radix.coming(place)
    }

    /// Takes a vertex of the greatest priority, where that is above the bound, if there is one. `None` exactly where none is.
    /// After `NoMemory` the same ones wait. Of two that are equal, the binary heap's is taken first.
    pub(crate) fn pop_above(&mut self, bound: Option<u64>) -> Result<Option<(u64, u32)>, NoMemory>
        ensures items { IfOk result (λ found. IfSome found (λ top. IsPermutation self.old (top ∷ self.new))) }
        ensures best { IfOk result (λ found. IfSome found (λ top. All (λ item. item.0 ≤ top.0) self.new)) }
        ensures above { IfOk result (λ found. IfSome found (λ top. IsTrue (is_above bound top.0))) }
        ensures none { IfOk result (λ found. IfNone found (All (λ item. is_above bound item.0 ≡ false) self.new)) }
        ensures kept { IfOk result (λ found. IfNone found (IsPermutation self.old self.new)) }
        ensures unchanged { OnErr result (IsPermutation self.old self.new) }
    {
        let Some(top) = top_above(&self.heap, bound) else {
            return self.radix.pop_above(bound);
        };
        match self.radix.pop_above(Some(top))? {
            Some(found) => Ok(Some(found)),
            None => Ok(self.heap.pop()),
        }
    }
}
