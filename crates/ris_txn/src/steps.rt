ghost use Rattle.std.specs.Prelude.{◌≡◌, ◌+◌, ◌<◌, OnOk, IfErr};
ghost use Rattle.ris_base.specs.Effect.{objection};
ghost use Rattle.ris_base.specs.Graph.{triple};
ghost use Rattle.ris_base.specs.Limits.{vertex_limit};
ghost use Rattle.ris_base.specs.declared.updates.Update.TheVariants.{AddV, DelV, AddE, DelE};

use crate::faults::Fault;
use crate::overlays::{Overlay, TripleNote, VertexNote};
use ris_base::{Triple, Update};
use ris_graph::Graph;

/// The triple of an edge whose ends are within the limit.
pub(crate) fn edge(u: u64, v: u64, w: u64) -> Triple
    requires source { u < vertex_limit }
    requires target { v < vertex_limit }
    ensures { result ≡ triple u v w }
{
    Triple {
        source: u as u32,
        target: v as u32,
        weight: w,
    }
}

impl VertexNote {
    ghost use Rattle.ris_txn.specs.Overlays.{left};

    /// The copies of a triple from this vertex, by the notes of its target and of itself: none where an end was dropped since.
    pub(crate) fn left(&self, target: &VertexNote, note: &TripleNote) -> u64
        ensures { result ≡ left self.now target.now note.now }
    {
        if self.dropped <= note.part && target.dropped <= note.part {
            note.copies
        } else {
            0
        }
    }
}

impl Overlay {
    ghost use Rattle.ris_txn.specs.Overlays.{AreBelow, standing_in};
    ghost use Rattle.ris_txn.specs.Judging.{lacking, IsFault, IsFree, IsStep};

    /// Takes the part of this number, or says why not. After a fault the overlay is of no use.
    pub(crate) fn apply<M>(
        &mut self,
        graph: &Graph<M>,
        part: &Update,
        number: u32,
    ) -> Result<(), Fault>
        requires { AreBelow graph.now self.old number }
        ensures ok { OnOk result (IsStep graph.now self.old self.new part.now number) }
        ensures free { OnOk result (IsFree objection graph.now self.old part.now) }
        ensures fault { IfErr result (IsFault objection graph.now self.old part.now) }
    {
        if let Err(given) = part.within_limits(graph.format()) {
            return Err(Fault::Limit(given));
        }
        match *part {
            Update::AddV { x } => self.add_vertex(graph, x as u32, number),
            Update::DelV { x } => self.drop_vertex(graph, x as u32, number),
            Update::AddE { u, v, w } => self.add_copy(graph, edge(u, v, w), number),
            Update::DelE { u, v, w } => self.take_copy(graph, edge(u, v, w), number),
            Update::SetW { u, v, w, w2 } => {
                self.take_copy(graph, edge(u, v, w), number)?;
                self.add_copy(graph, edge(u, v, w2), number)
            }
        }
    }

    /// The vertex is there.
    fn add_vertex<M>(&mut self, graph: &Graph<M>, x: u32, number: u32) -> Result<(), Fault>
        requires { AreBelow graph.now self.old number }
        ensures ok { OnOk result (IsStep graph.now self.old self.new (AddV x) number) }
        ensures fault { IfErr result (IsFault lacking graph.now self.old (AddV x)) }
    {
        let note = self.vertex(graph, x);
        if !note.present {
            let present = true;
            self.put_vertex(x, VertexNote { present, ..note })?;
        }
        Ok(())
    }

    /// The vertex is gone, and the triples that name it.
    fn drop_vertex<M>(&mut self, graph: &Graph<M>, x: u32, number: u32) -> Result<(), Fault>
        requires { AreBelow graph.now self.old number }
        ensures ok { OnOk result (IsStep graph.now self.old self.new (DelV x) number) }
        ensures free { OnOk result (IsFree lacking graph.now self.old (DelV x)) }
        ensures fault { IfErr result (IsFault lacking graph.now self.old (DelV x)) }
    {
        if !self.vertex(graph, x).present {
            return Err(Fault::NoVertex(x as u64));
        }
        let note = VertexNote {
            dropped: number,
            present: false,
        };
        self.put_vertex(x, note)?;
        Ok(())
    }

    /// One copy more. `NoMemory` comes, too, where the number of copies would pass 2^64 - 1.
    fn add_copy<M>(&mut self, graph: &Graph<M>, t: Triple, number: u32) -> Result<(), Fault>
        requires { AreBelow graph.now self.old (number + 1) }
        ensures ok { OnOk result (IsStep graph.now self.old self.new (AddE t.source t.target t.weight) number) }
        ensures free { OnOk result (IsFree lacking graph.now self.old (AddE t.source t.target t.weight)) }
        ensures fault { IfErr result (IsFault lacking graph.now self.old (AddE t.source t.target t.weight)) }
    {
        let note = self.standing(graph, t)?;
        let Some(copies) = note.copies.checked_add(1) else {
            return Err(Fault::NoMemory);
        };
        let part = number;
        self.put_triple(
            t,
            TripleNote {
                copies,
                part,
                ..note
            },
        )?;
        Ok(())
    }

    /// One copy less.
    fn take_copy<M>(&mut self, graph: &Graph<M>, t: Triple, number: u32) -> Result<(), Fault>
        requires { AreBelow graph.now self.old (number + 1) }
        ensures ok { OnOk result (IsStep graph.now self.old self.new (DelE t.source t.target t.weight) number) }
        ensures free { OnOk result (IsFree lacking graph.now self.old (DelE t.source t.target t.weight)) }
        ensures fault { IfErr result (IsFault lacking graph.now self.old (DelE t.source t.target t.weight)) }
    {
        let note = self.standing(graph, t)?;
        if note.copies == 0 {
            return Err(Fault::NoEdge);
        }
        let copies = note.copies - 1;
        let part = number;
        self.put_triple(
            t,
            TripleNote {
                copies,
                part,
                ..note
            },
        )?;
        Ok(())
    }

    /// The note of a triple with the copies that there are now, where both its ends are there.
    fn standing<M>(&self, graph: &Graph<M>, t: Triple) -> Result<TripleNote, Fault>
        ensures { result ≡ standing_in graph.now self.now t }
    {
        let source = self.vertex(graph, t.source);
        if !source.present {
            return Err(Fault::NoVertex(t.source as u64));
        }
        let target = self.vertex(graph, t.target);
        if !target.present {
            return Err(Fault::NoVertex(t.target as u64));
        }
        let note = self.triple(graph, t);
        let copies = source.left(&target, &note);
        Ok(TripleNote { copies, ..note })
    }
}
