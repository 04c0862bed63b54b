ghost use Rattle.std.specs.Prelude.{◌≡◌, ◌-◌, ◌+◌, ◌≤◌, ◌++◌, length, replicate, OnOk, OnErr, IfOk};
ghost use Rattle.ris_rows.specs.Neighbours.{IsAscending};
ghost use Rattle.ris_graph.specs.Ticks.{ticked, IsRise};
ghost use Rattle.ris_graph.specs.Listings.{row_triples, vertices_at, triples_at};

use crate::graphs::Graph;
use ris_base::{Meter, NoMemory, PlainGraph, Triple, Triples, Vertices};
use ris_rows::Cursor;

impl<M: Meter> Graph<M> {
    ghost use Rattle.ris_base.specs.declared.graphs.PlainGraph.{PlainGraph};
    ghost use Rattle.ris_graph.specs.GraphView.{IsOf};

    /// The plain graph that the graph is. The meter ticks once for each copy of a triple; where `NoMemory` comes, at most
    /// so many times.
    pub fn plain(&self, meter: &mut M) -> Result<PlainGraph, NoMemory>
        ensures of { IfOk result (λ p. IsOf self.now p) }
        ensures ticks { IfOk result (λ p. M.ticks meter.new ≡ ticked (M.ticks meter.old) (length p.triples)) }
        ensures err { OnErr result ((p : PlainGraph) → IsOf self.now p → IsRise (M.ticks meter.old) (M.ticks meter.new) (length p.triples)) }
    {
        let mut vertices = Vertices::new(self.alloc);
        let mut triples = Triples::new(self.alloc);
        for x in 0..self.present.len() {
            self.list(x as u32, &mut vertices, &mut triples, meter)?;
        }
        Ok(PlainGraph {
            format: self.format,
            vertices,
            triples,
        })
    }

    /// One vertex more with its triples, where it is present.
    fn list(
        &self,
        x: u32,
        vertices: &mut Vertices,
        triples: &mut Triples,
        meter: &mut M,
    ) -> Result<(), NoMemory>
        ensures vertices { OnOk result (vertices.new ≡ vertices.old ++ vertices_at self.now x) }
        ensures triples { OnOk result (triples.new ≡ triples.old ++ triples_at self.now x) }
        ensures ticks { OnOk result (M.ticks meter.new ≡ ticked (M.ticks meter.old) (length (triples_at self.now x))) }
        ensures rise { IsRise (M.ticks meter.old) (M.ticks meter.new) (length (triples_at self.now x)) }
    {
        if self.has_vertex(x as u64) {
            vertices.push(x)?;
            list_row(self.out_cursor(x), x, triples, meter)?;
        }
        Ok(())
    }
}

/// The triples of the neighbours that a cursor still has to hand out, in the out row of `source`, each with its copies.
fn list_row<M: Meter>(
    mut cursor: Cursor<'_, M>,
    source: u32,
    triples: &mut Triples,
    meter: &mut M,
) -> Result<(), NoMemory>
    requires { IsAscending cursor }
    ensures triples { OnOk result (triples.new ≡ triples.old ++ row_triples source cursor.entry) }
    ensures ticks { OnOk result (M.ticks meter.new ≡ ticked (M.ticks meter.old) (length (row_triples source cursor.entry))) }
    ensures rise { IsRise (M.ticks meter.old) (M.ticks meter.new) (length (row_triples source cursor.entry)) }
{
    while let Some((target, weight, copies)) = cursor.next(meter) {
        let triple = Triple {
            source,
            target,
            weight,
        };
        push_copies(triples, triple, copies, meter)?;
    }
    Ok(())
}

/// So many copies of a triple. The meter ticks for each but the first.
fn push_copies<M: Meter>(
    triples: &mut Triples,
    triple: Triple,
    copies: u64,
    meter: &mut M,
) -> Result<(), NoMemory>
    requires { 1 ≤ copies }
    ensures triples { OnOk result (triples.new ≡ triples.old ++ replicate copies triple) }
    ensures ticks { OnOk result (M.ticks meter.new ≡ ticked (M.ticks meter.old) (copies - 1)) }
    ensures rise { IsRise (M.ticks meter.old) (M.ticks meter.new) (copies - 1) }
{
    triples.push(triple)?;
    for _ in 1..copies {
        meter.tick();
        triples.push(triple)?;
    }
    Ok(())
}
