ghost use Rattle.std.specs.Prelude.{◌≡◌, ◌<◌, ◌^◌, ◌++◌, ℕ, List, [], length, OnOk};
ghost use Rattle.std.specs.List.{All, sum_by};
ghost use Rattle.ris_base.specs.Falling.{push};
ghost use Rattle.ris_base.specs.Limits.{vertex_limit};
ghost use Rattle.ris_base.specs.declared.graphs.PlainGraph.{PlainGraph};
ghost use Rattle.ris_algo.specs.Spreading.{nothing};
ghost use Rattle.ris_forest.specs.Cells.{forest_of};
ghost use Rattle.ris_graph.specs.GraphView.{IsOf};
ghost use Rattle.ris_graph.specs.Ticks.{IsRise};
ghost use Rattle.ris_repair.specs.Changes.{KeepsSettled, NoneSettled, NoneWaits};
ghost use Rattle.ris_repair.specs.Rows.{IsEnd, pairs, ends_of, end_count};
ghost use Rattle.ris_repair.specs.Stages.{IsPushing, PushesOn, Covers};
ghost use Rattle.ris_repair.specs.Stores.{change_at};

use crate::frontiers::Frontier;
use crate::pulling::triple_of;
use ris_algo::Monotone;
use ris_base::{Meter, NoMemory, Parent};
use ris_forest::Forest;
use ris_graph::Graph;
use ris_rows::{Cursor, Glance};

/// For how many vertices to look ahead at once. So many turns later it is done again.
const AHEAD: usize = 8;

impl Frontier {
    /// Looks, in each turn whose number is a multiple of `AHEAD`, at the rows of as many vertices that are likely to be taken
    /// next, where a whole graph is repaired: memory answers for many rows at once nearly as soon as for one.
    fn look_ahead<A: Monotone, M: Meter>(&mut self, graph: &Graph<M>, turn: usize)
        ensures { self.new ≡ self.old }
    {
        if turn % AHEAD == 0 {
            let glance = self.ahead::<A, M>(graph);
            self.queue.keep(glance);
        }
    }

    /// What is seen of the rows of the vertices that are likely to be taken next.
    fn ahead<A: Monotone, M: Meter>(&self, graph: &Graph<M>) -> Glance {
        let mut glance = Glance::none();
        for place in 0..AHEAD {
            let Some(vertex) = self.queue.coming(place) else {
                break;
            };
            glance = graph.out_cursor(vertex).glance(glance);
            if A::BOTH_WAYS {
                glance = graph.in_cursor(vertex).glance(glance);
            }
        }
        glance
    }

    /// Offers each neighbour in a row the step from the number of a settled vertex.
    fn push_row<A: Monotone, M: Meter>(
        &mut self,
        forest: &Forest<A>,
        vertex: u32,
        number: u64,
        mut row: Cursor<'_, M>,
        forward: bool,
        meter: &mut M,
    ) -> Result<(), NoMemory>
        requires number { number < 2 ^ 59 }
        requires weights { All (λ n. n.weight < 2 ^ 36) row }
        ensures settled { KeepsSettled (change_at self.old.changes) (change_at self.new.changes) }
        ensures ticks { IsRise (M.ticks meter.old) (M.ticks meter.new) (length row.entry) }
        ensures kept { OnOk result ((g : PlainGraph) (fallen : List ℕ) (left : List (ℕ × ℕ)) → All (IsEnd g (A.spec forest.now.algo).kind forward vertex) row.entry
            → PushesOn g (A.spec forest.now.algo) (forest_of forest.now.cells) vertex_limit fallen (change_at self.old.changes) self.old.queue vertex number (pairs row.entry ++ left)
            → PushesOn g (A.spec forest.now.algo) (forest_of forest.now.cells) vertex_limit fallen (change_at self.new.changes) self.new.queue vertex number left) }
    {
        while let Some((end, weight, _)) = row.next(meter) {
            let along = triple_of(forward, vertex, end, weight);
            let parent = Parent::From {
                vertex,
                source: along.source,
                target: along.target,
                weight,
            };
            let stepped = forest.algo().step(number, weight);
            self.offer(forest, end, stepped, parent)?;
        }
        Ok(())
    }

    /// Offers each neighbour to which walks may go the step from the number of a settled vertex.
    fn push_vertex<A: Monotone, M: Meter>(
        &mut self,
        graph: &Graph<M>,
        forest: &Forest<A>,
        vertex: u32,
        number: u64,
        meter: &mut M,
    ) -> Result<(), NoMemory>
        requires of { (g : PlainGraph) × IsOf graph.now g }
        requires number { number < 2 ^ 59 }
        ensures settled { KeepsSettled (change_at self.old.changes) (change_at self.new.changes) }
        ensures ticks { IsRise (M.ticks meter.old) (M.ticks meter.new) (end_count A.BOTH_WAYS graph.now vertex) }
        ensures kept { OnOk result ((g : PlainGraph) (fallen : List ℕ) → IsOf graph.now g
            → PushesOn g (A.spec forest.now.algo) (forest_of forest.now.cells) vertex_limit fallen (change_at self.old.changes) self.old.queue vertex number (ends_of A.BOTH_WAYS graph.now vertex)
            → PushesOn g (A.spec forest.now.algo) (forest_of forest.now.cells) vertex_limit fallen (change_at self.new.changes) self.new.queue vertex number []) }
    {
        let out_row = graph.out_cursor(vertex);
        self.push_row(forest, vertex, number, out_row, true, meter)?;
        if !A::BOTH_WAYS {
            return Ok(());
        }
        let in_row = graph.in_cursor(vertex);
        self.push_row(forest, vertex, number, in_row, false, meter)?;
        Ok(())
    }

    /// Spreads values from the vertices that wait, best first, until none waits. Each vertex's neighbours are handed out
    /// once.
    pub(crate) fn push_all<A: Monotone, M: Meter>(
        &mut self,
        graph: &Graph<M>,
        forest: &Forest<A>,
        meter: &mut M,
    ) -> Result<(), NoMemory>
        requires on { (g : PlainGraph) × (fallen : List ℕ) × IsOf graph.now g
            × IsPushing g (A.spec forest.now.algo) (forest_of forest.now.cells) vertex_limit fallen (change_at self.old.changes) self.old.queue nothing }
        requires fresh { NoneSettled (change_at self.old.changes) }
        ensures none { OnOk result (NoneWaits (change_at self.new.changes)) }
        ensures kept { OnOk result ((g : PlainGraph) (fallen : List ℕ) → IsOf graph.now g
            → IsPushing g (A.spec forest.now.algo) (forest_of forest.now.cells) vertex_limit fallen (change_at self.old.changes) self.old.queue nothing
            → IsPushing g (A.spec forest.now.algo) (forest_of forest.now.cells) vertex_limit fallen (change_at self.new.changes) self.new.queue nothing) }
        ensures visits { (g : PlainGraph) (fallen xs : List ℕ) → IsOf graph.now g
            → IsPushing g (A.spec forest.now.algo) (forest_of forest.now.cells) vertex_limit fallen (change_at self.old.changes) self.old.queue nothing
            → Covers g (A.spec forest.now.algo) (forest_of forest.now.cells) fallen xs
            → IsRise (M.ticks meter.old) (M.ticks meter.new) (sum_by (push g (A.spec forest.now.algo)) xs) }
    {
        let mut turn: usize = 0;
        while let Some((vertex, number)) = self.take_best(forest)? {
            self.look_ahead::<A, M>(graph, turn);
            turn = turn.wrapping_add(1);
            self.push_vertex(graph, forest, vertex, number, meter)?;
        }
        Ok(())
    }
}
