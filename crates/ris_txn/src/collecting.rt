ghost use Rattle.std.specs.Prelude.{◌≡◌, ◌∷◌, [], length, OnOk, sum_by};
ghost use Rattle.ris_base.specs.declared.graphs.PlainGraph.{PlainGraph};
ghost use Rattle.ris_graph.specs.GraphView.{IsOf};
ghost use Rattle.ris_graph.specs.Ticks.{IsRise};
ghost use Rattle.ris_txn.specs.Touching.{triple_along};

use crate::overlays::{Overlay, TripleNote};
use ris_base::{Meter, NoMemory, Triple, Vertices};
use ris_graph::Graph;
use ris_rows::Cursor;

/// The triple of a neighbour in a row of `x`: out of `x`, or into it.
fn triple_along(out: bool, x: u32, end: u32, weight: u64) -> Triple
    ensures { result ≡ triple_along out x (record { end = end; weight = weight; copies = 0 }) }
{
    let (source, target) = if out { (x, end) } else { (end, x) };
    Triple {
        source,
        target,
        weight,
    }
}

impl Overlay {
    ghost use Rattle.ris_txn.specs.Touching.{rows_length, IsTouched, IsRowTouched, AreTouched};

    /// Notes the triples that name one of these vertices. The meter ticks at most once for each neighbour in their rows.
    pub(crate) fn touch_all<M: Meter>(
        &mut self,
        graph: &Graph<M>,
        vertices: &Vertices,
        meter: &mut M,
    ) -> Result<(), NoMemory>
        ensures touched { OnOk result ((p : PlainGraph) → IsOf graph.now p → AreTouched graph.now self.old self.new vertices.now) }
        ensures rise { IsRise (M.ticks meter.old) (M.ticks meter.new) (sum_by (rows_length graph.now) vertices.now) }
    {
        for k in 0..vertices.len() {
            self.touch_rows(graph, *vertices.at(k), meter)?;
        }
        Ok(())
    }

    /// Notes the triples that name a vertex.
    fn touch_rows<M: Meter>(
        &mut self,
        graph: &Graph<M>,
        x: u32,
        meter: &mut M,
    ) -> Result<(), NoMemory>
        ensures touched { OnOk result ((p : PlainGraph) → IsOf graph.now p → AreTouched graph.now self.old self.new (x ∷ [])) }
        ensures rise { IsRise (M.ticks meter.old) (M.ticks meter.new) (rows_length graph.now x) }
    {
        self.touch_row(false, x, graph.in_cursor(x), meter)?;
        self.touch_row(true, x, graph.out_cursor(x), meter)
    }

    /// Notes the triples of what is left of a row of `x`.
    fn touch_row<M: Meter>(
        &mut self,
        out: bool,
        x: u32,
        mut row: Cursor<'_, M>,
        meter: &mut M,
    ) -> Result<(), NoMemory>
        ensures touched { OnOk result (IsRowTouched self.old self.new out x row.entry) }
        ensures rise { IsRise (M.ticks meter.old) (M.ticks meter.new) (length row.entry) }
    {
        while let Some((end, weight, copies)) = row.next(meter) {
            self.touch(triple_along(out, x, end, weight), copies)?;
        }
        Ok(())
    }

    /// Notes a triple of which the graph has so many copies, where it has no note.
    fn touch(&mut self, t: Triple, copies: u64) -> Result<(), NoMemory>
        ensures { OnOk result (IsTouched self.old self.new t copies) }
    {
        let key = (t.source, t.target, t.weight);
        if !self.triples.contains_key(&key) {
            let before = copies;
            let part = 0;
            let note = TripleNote {
                before,
                copies,
                part,
            };
            self.triples.insert(key, note)?;
        }
        Ok(())
    }
}
