ghost use Rattle.std.specs.Prelude.{◌≡◌, ◌<◌, ◌^◌, ◌++◌, ℕ, List, [], ◌∷◌, false, length, IsSome, OnOk};
ghost use Rattle.std.specs.List.{All, Contains, sum_by};
ghost use Rattle.ris_base.specs.Limits.{vertex_limit};
ghost use Rattle.ris_base.specs.declared.graphs.PlainGraph.{PlainGraph};
ghost use Rattle.ris_forest.specs.Cells.{forest_of};
ghost use Rattle.ris_graph.specs.GraphView.{IsOf};
ghost use Rattle.ris_graph.specs.Ticks.{IsRise};
ghost use Rattle.ris_repair.specs.Changes.{is_number, standing_value, with_change, AreQueuedBut};
ghost use Rattle.ris_repair.specs.Crossing.{pulled};
ghost use Rattle.ris_repair.specs.Rows.{IsOrigin, pairs, origins_of, origin_count, triple_of};
ghost use Rattle.ris_repair.specs.Stages.{IsPrepared, unpulled};
ghost use Rattle.ris_repair.specs.Stores.{change_at};

use crate::frontiers::{Frontier, wins};
use crate::stores::Change;
use ris_algo::Monotone;
use ris_base::{Meter, NoMemory, Parent, Triple, Value, Vertices};
use ris_forest::Forest;
use ris_graph::Graph;
use ris_rows::Cursor;

/// The triple between a vertex and a neighbour, out of the vertex or into it.
pub(crate) fn triple_of(forward: bool, vertex: u32, end: u32, weight: u64) -> Triple
    ensures { result ≡ triple_of forward vertex end weight }
{
    if forward {
        Triple {
            source: vertex,
            target: end,
            weight,
        }
    } else {
        Triple {
            source: end,
            target: vertex,
            weight,
        }
    }
}

impl Frontier {
    /// Takes the step along a triple from the vertex `from` into what a vertex has, where `from` stands as it was and the
    /// step is better.
    fn pull<A: Monotone>(&self, forest: &Forest<A>, from: u32, along: Triple, best: &mut Change)
        requires { along.weight < 2 ^ 36 }
        ensures { best.new ≡ pulled (A.spec forest.now.algo).kind best.old (standing_value ((forest_of forest.now.cells).value from) (change_at self.now.changes from)) from along }
    {
        if let Value::Num(number) = forest.value(from as u64) {
            let stepped = forest.algo().step(number, along.weight);
            if wins(forest.algo(), stepped, best.value) && self.stands(from) {
                best.value = Value::Num(stepped);
                best.parent = Parent::From {
                    vertex: from,
                    source: along.source,
                    target: along.target,
                    weight: along.weight,
                };
            }
        }
    }

    /// Takes the step from each neighbour in a row that stands as it was into what a vertex has, where it is better.
    fn pull_row<A: Monotone, M: Meter>(
        &self,
        forest: &Forest<A>,
        vertex: u32,
        best: &mut Change,
        mut row: Cursor<'_, M>,
        forward: bool,
        meter: &mut M,
    )
        requires weights { All (λ n. n.weight < 2 ^ 36) row }
        ensures ticks { IsRise (M.ticks meter.old) (M.ticks meter.new) (length row.entry) }
        ensures unchanged { is_number best.new.value ≡ false → best.new ≡ best.old }
        ensures kept { (p g : PlainGraph) (fallen rest : List ℕ) (left queue : List (ℕ × ℕ)) → IsSome (change_at self.now.changes vertex)
            → All (IsOrigin g (A.spec forest.now.algo).kind forward vertex) row.entry
            → IsPrepared g (A.spec forest.now.algo) (forest_of forest.now.cells) vertex_limit fallen (with_change (change_at self.now.changes) vertex best.old) queue (unpulled p vertex (pairs row.entry ++ left) rest)
            → (after : List (ℕ × ℕ)) × IsPrepared g (A.spec forest.now.algo) (forest_of forest.now.cells) vertex_limit fallen (with_change (change_at self.now.changes) vertex best.new) after (unpulled p vertex left rest) }
    {
        while let Some((end, weight, _)) = row.next(meter) {
            let along = triple_of(forward, vertex, end, weight);
            self.pull(forest, end, along, best);
        }
    }

    /// Takes the step from each neighbour from which walks may come and that stands as it was into what a vertex has, where
    /// it is better.
    fn pull_rows<A: Monotone, M: Meter>(
        &self,
        graph: &Graph<M>,
        forest: &Forest<A>,
        vertex: u32,
        best: &mut Change,
        meter: &mut M,
    )
        requires of { (g : PlainGraph) × IsOf graph.now g }
        ensures ticks { IsRise (M.ticks meter.old) (M.ticks meter.new) (origin_count A.BOTH_WAYS graph.now vertex) }
        ensures unchanged { is_number best.new.value ≡ false → best.new ≡ best.old }
        ensures kept { (p g : PlainGraph) (fallen rest : List ℕ) (queue : List (ℕ × ℕ)) → IsOf graph.now g → IsSome (change_at self.now.changes vertex)
            → IsPrepared g (A.spec forest.now.algo) (forest_of forest.now.cells) vertex_limit fallen (with_change (change_at self.now.changes) vertex best.old) queue (unpulled p vertex (origins_of A.BOTH_WAYS graph.now vertex) rest)
            → (after : List (ℕ × ℕ)) × IsPrepared g (A.spec forest.now.algo) (forest_of forest.now.cells) vertex_limit fallen (with_change (change_at self.now.changes) vertex best.new) after (unpulled p vertex [] rest) }
    {
        let in_row = graph.in_cursor(vertex);
        self.pull_row(forest, vertex, best, in_row, false, meter);
        if !A::BOTH_WAYS {
            return;
        }
        let out_row = graph.out_cursor(vertex);
        self.pull_row(forest, vertex, best, out_row, true, meter);
    }

    /// Gives a vertex that began anew the best of what it has and the steps from the neighbours from which walks may come
    /// and that stand as they were, and lets it wait where it has a number then.
    fn pull_vertex<A: Monotone, M: Meter>(
        &mut self,
        graph: &Graph<M>,
        forest: &Forest<A>,
        vertex: u32,
        meter: &mut M,
    ) -> Result<(), NoMemory>
        requires of { (g : PlainGraph) × IsOf graph.now g }
        ensures ticks { IsRise (M.ticks meter.old) (M.ticks meter.new) (origin_count A.BOTH_WAYS graph.now vertex) }
        ensures stays { OnOk result ((x : ℕ) → IsSome (change_at self.old.changes x) → IsSome (change_at self.new.changes x)) }
        ensures queued { OnOk result ((rest : List ℕ) → AreQueuedBut (A.spec forest.now.algo).kind (vertex ∷ rest) (change_at self.old.changes) self.old.queue
            → AreQueuedBut (A.spec forest.now.algo).kind rest (change_at self.new.changes) self.new.queue) }
        ensures kept { OnOk result ((p g : PlainGraph) (fallen rest : List ℕ) (queue : List (ℕ × ℕ)) → IsOf graph.now g → IsSome (change_at self.old.changes vertex)
            → IsPrepared g (A.spec forest.now.algo) (forest_of forest.now.cells) vertex_limit fallen (change_at self.old.changes) queue (unpulled p vertex (origins_of A.BOTH_WAYS graph.now vertex) rest)
            → (after : List (ℕ × ℕ)) × IsPrepared g (A.spec forest.now.algo) (forest_of forest.now.cells) vertex_limit fallen (change_at self.new.changes) after (unpulled p vertex [] rest)) }
    {
        let mut best = match self.changes.get(vertex) {
            Some(change) => change,
            None => return Ok(()),
        };
        self.pull_rows(graph, forest, vertex, &mut best, meter);
        if let Value::Num(_) = best.value {
            self.put(forest, vertex, best)?;
        }
        Ok(())
    }

    /// Gives each of these vertices, which began anew, the best of what it has and the steps from its neighbours that stand
    /// as they were. Those with a number then wait.
    pub(crate) fn pull_all<A: Monotone, M: Meter>(
        &mut self,
        graph: &Graph<M>,
        forest: &Forest<A>,
        fallen: &Vertices,
        meter: &mut M,
    ) -> Result<(), NoMemory>
        requires of { (g : PlainGraph) × IsOf graph.now g }
        ensures ticks { IsRise (M.ticks meter.old) (M.ticks meter.new) (sum_by (origin_count A.BOTH_WAYS graph.now) fallen.now) }
        ensures queued { OnOk result (AreQueuedBut (A.spec forest.now.algo).kind fallen.now (change_at self.old.changes) self.old.queue
            → AreQueuedBut (A.spec forest.now.algo).kind [] (change_at self.new.changes) self.new.queue) }
        ensures kept { OnOk result ((p g : PlainGraph) (due : List ℕ) (queue : List (ℕ × ℕ)) → IsOf graph.now g → ((x : ℕ) → Contains fallen.now x → IsSome (change_at self.old.changes x))
            → IsPrepared g (A.spec forest.now.algo) (forest_of forest.now.cells) vertex_limit due (change_at self.old.changes) queue (unpulled p 0 [] fallen.now)
            → (after : List (ℕ × ℕ)) × IsPrepared g (A.spec forest.now.algo) (forest_of forest.now.cells) vertex_limit due (change_at self.new.changes) after (unpulled p 0 [] [])) }
    {
        for k in 0..fallen.len() {
            self.pull_vertex(graph, forest, *fallen.at(k), meter)?;
        }
        Ok(())
    }
}
