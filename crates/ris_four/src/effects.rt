ghost use Rattle.std.specs.Prelude.{◌≡◌, ◌≢◌, ◌<◌, ◌+◌, ◌^◌, ◌==◌, ◌&&◌, Ok, Err, Some, None, IfOk, IfErr, OnOk, Bool, not, filter};
ghost use Rattle.std.specs.List.{list_any, position};
ghost use Rattle.std.specs.Option.{option_map};
ghost use Rattle.ris_base.specs.Effect.{changed, does, first_missing, lacks_copy, missing, objection, without_first};
ghost use Rattle.ris_base.specs.Graph.{has_equal, has_vertex, is_equal, names, triple};
ghost use Rattle.ris_base.specs.Requests.{does_from, refusal_of, refused_at};
ghost use Rattle.ris_four.specs.Working.{plain_of, refusal_at};

use crate::tables::items_of;
use ris_base::{Format, NoMemory, Parts, PlainGraph, Refusal, Sequence, Triple, Update};
use std::alloc::Global;

/// The graph after a request on a plain graph, by the definition: its parts one after another, each by a search through
/// the lists. The graph itself stays as it is. A refusal names the first refused part, with the given front; want of memory
/// is apart.
pub fn plain_entered(
    alloc: Global,
    graph: &PlainGraph,
    parts: &Parts,
    front: u64,
) -> Result<PlainGraph, Refusal>
    ensures ok { IfOk result (λ after. does_from 1 graph.now parts.now ≡ Ok after) }
    ensures refused { IfErr result (λ refusal. refusal ≢ Refusal.NoMemory
        → option_map (refused_at front) (refusal_of graph.now parts.now) ≡ Some refusal) }
{
    let Ok(mut working) = working_copy(alloc, graph) else {
        return Err(Refusal::NoMemory);
    };
    for k in 0..parts.len() {
        if let Some(part) = parts.get(k) {
            if let Err(refusal) = working.enter(*part, front, k as u32 + 1) {
                return Err(refusal);
            }
        }
    }
    Ok(working.into_plain())
}

/// An equal plain graph.
pub fn plain_copy(alloc: Global, graph: &PlainGraph) -> Result<PlainGraph, NoMemory>
    ensures { IfOk result (λ copy. copy ≡ graph.now) }
{
    let working = working_copy(alloc, graph)?;
    Ok(working.into_plain())
}

/// A plain graph that is being changed.
#[derive(Drop)]
struct Working {
    format: Format,
    vertices: Vec<u32>,
    triples: Vec<Triple>,
}

/// A copy of a plain graph.
fn working_copy(alloc: Global, graph: &PlainGraph) -> Result<Working, NoMemory>
    ensures { IfOk result (λ working. plain_of working ≡ graph.now) }
{
    Ok(Working {
        format: graph.format,
        vertices: items_of(alloc, &graph.vertices)?,
        triples: items_of(alloc, &graph.triples)?,
    })
}

impl Working {
    /// The plain graph that it is now.
    fn into_plain(self) -> PlainGraph
        ensures { result ≡ plain_of self }
    {
        let Working {
            format,
            vertices,
            triples,
        } = self;
        PlainGraph {
            format,
            vertices: Sequence::from_vec(vertices),
            triples: Sequence::from_vec(triples),
        }
    }

    /// Whether `x` is a vertex.
    fn has_vertex(&self, x: u64) -> bool
        ensures { result ≡ has_vertex (plain_of self.now) x }
    {
        self.vertices.iter().any(|y| u64::from(*y) == x)
    }

    /// Whether there is a copy of a triple.
    fn has_copy(&self, u: u64, v: u64, w: u64) -> bool
        ensures { result ≡ has_equal (plain_of self.now) (triple u v w) }
    {
        self.triples.iter().any(|t| is_equal(u, v, w, t))
    }

    /// The first vertex that an update needs and the graph lacks.
    fn missing(&self, update: &Update) -> Option<u64>
        ensures { result ≡ first_missing (plain_of self.now) update.now }
    {
        match *update {
            Update::AddV { .. } => None,
            Update::DelV { x } => self.missing_one(x),
            Update::AddE { u, v, .. } | Update::DelE { u, v, .. } | Update::SetW { u, v, .. } => {
                self.missing_one(u).or(self.missing_one(v))
            }
        }
    }

    /// A vertex number where the graph lacks it.
    fn missing_one(&self, x: u64) -> Option<u64>
        ensures { result ≡ missing (plain_of self.now) x }
    {
        if self.has_vertex(x) { None } else { Some(x) }
    }

    /// Whether an update takes a copy of a triple of which there is none.
    fn lacks_copy(&self, update: &Update) -> bool
        ensures { result ≡ lacks_copy (plain_of self.now) update.now }
    {
        match *update {
            Update::AddV { .. } | Update::DelV { .. } | Update::AddE { .. } => false,
            Update::DelE { u, v, w } | Update::SetW { u, v, w, .. } => !self.has_copy(u, v, w),
        }
    }

    /// The refusal of the part with this number, where there is an objection to it.
    fn refusal(&self, update: &Update, front: u64, part: u32) -> Option<Refusal>
        ensures { result ≡ refusal_at front part (plain_of self.now) update.now }
    {
        if let Err(given) = update.within_limits(self.format) {
            return Some(Refusal::Limit { front, part, given });
        }
        if let Some(id) = self.missing(update) {
            return Some(Refusal::NoVertex { front, part, id });
        }
        if self.lacks_copy(update) {
            return Some(Refusal::NoEdge { front, part });
        }
        None
    }

    /// One copy less of a triple: the first one is gone.
    fn take_copy(&mut self, u: u64, v: u64, w: u64)
        ensures { plain_of self.new ≡ record (plain_of self.old) { triples = without_first (triple u v w) self.old.triples.items } }
    {
        if let Some(place) = self.first_copy(u, v, w) {
            let _ = self.triples.remove(place);
        }
    }

    /// Where the first copy of a triple is.
    fn first_copy(&self, u: u64, v: u64, w: u64) -> Option<usize>
        ensures { result ≡ position (is_equal (triple u v w)) self.now.triples.items }
    {
        self.triples.iter().position(|t| is_equal(u, v, w, t))
    }

    /// One copy more of a triple.
    fn add_copy(&mut self, u: u64, v: u64, w: u64) -> Result<(), NoMemory>
        requires source { u < 2 ^ 32 }
        requires target { v < 2 ^ 32 }
        ensures { OnOk result (plain_of self.new ≡ changed (plain_of self.old) (Update.AddE u v w)) }
    {
        self.triples.push(Triple {
            source: u as u32,
            target: v as u32,
            weight: w,
        })?;
        Ok(())
    }

    /// Without a vertex and the triples that name it.
    fn drop_vertex(&mut self, x: u64)
        ensures { plain_of self.new ≡ changed (plain_of self.old) (Update.DelV x) }
    {
        self.vertices.retain(|y| u64::from(*y) != x);
        self.triples.retain(|t| !(u64::from(t.source) == x || u64::from(t.target) == x));
    }

    /// Makes the change of an update to which there is no objection.
    fn change(&mut self, update: Update) -> Result<(), NoMemory>
        requires { objection (plain_of self.old) update ≡ None }
        ensures { OnOk result (plain_of self.new ≡ changed (plain_of self.old) update) }
    {
        match update {
            Update::AddV { x } => {
                if !self.has_vertex(x) {
                    self.vertices.push(x as u32)?;
                }
                Ok(())
            }
            Update::DelV { x } => {
                self.drop_vertex(x);
                Ok(())
            }
            Update::AddE { u, v, w } => self.add_copy(u, v, w),
            Update::DelE { u, v, w } => {
                self.take_copy(u, v, w);
                Ok(())
            }
            Update::SetW { u, v, w, w2 } => {
                self.take_copy(u, v, w);
                self.add_copy(u, v, w2)
            }
        }
    }

    /// Enters the part with this number, or refuses it and leaves the graph as it was.
    fn enter(&mut self, update: Update, front: u64, part: u32) -> Result<(), Refusal>
        ensures ok { OnOk result (does (plain_of self.old) update ≡ Ok (plain_of self.new)) }
        ensures refused { IfErr result (λ refusal. refusal ≢ Refusal.NoMemory
            → refusal_at front part (plain_of self.old) update ≡ Some refusal) }
    {
        if let Some(refusal) = self.refusal(&update, front, part) {
            return Err(refusal);
        }
        match self.change(update) {
            Ok(()) => Ok(()),
            Err(NoMemory) => Err(Refusal::NoMemory),
        }
    }
}

/// Whether three numbers are those of a triple.
fn is_equal(u: u64, v: u64, w: u64, t: &Triple) -> bool
    ensures { result ≡ is_equal (triple u v w) t.now }
{
    u == u64::from(t.source) && v == u64::from(t.target) && w == t.weight
}
