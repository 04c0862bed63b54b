ghost use Rattle.std.specs.Prelude.{◌≡◌, ◌↔◌, List, [], ◌∷◌, IfOk, IfErr, IfSome, IsSome, IsTrue, MatchOption, false, true};
ghost use Rattle.ris_base.specs.declared.graphs.PlainGraph.{PlainGraph};
ghost use Rattle.ris_base.specs.declared.updates.Update.{Update};
ghost use Rattle.ris_base.specs.declared.updates.Update.TheVariants.{AddE, DelE};
ghost use Rattle.ris_graph.specs.GraphView.{IsOf};
ghost use Rattle.ris_graph.specs.Nets.{IsNet};
ghost use Rattle.ris_txn.specs.Refusals.{IsRefusal};
ghost use Rattle.ris_txn.specs.Singles.{IsLone, IsReason, IsStandingEdge, is_single, lone_net, moves_copy};

use crate::faults::Fault;
use crate::steps::edge;
use ris_base::{NoMemory, Parts, Refusal, Triple, Update, Vertices};
use ris_graph::{Graph, Net, NetTriple, NetTriples};
use std::alloc::Global;

/// The net of a request whose only part adds or takes a copy of an edge, or its refusal. `None` exactly for every other
/// request. It needs no notes: memory for the one triple, two look-ups of vertices and a binary search.
pub(crate) fn single<M>(
    alloc: Global,
    graph: &Graph<M>,
    parts: &Parts,
    front: u64,
) -> Option<Result<Net, Refusal>>
    ensures some { IsSome result ↔ IsTrue (is_single parts.now) }
    ensures ok { IfSome result (λ answer. (p : PlainGraph) → IsOf graph.now p → IfOk answer (IsNet p parts.now)) }
    ensures refused { IfSome result (λ answer. (p : PlainGraph) → IsOf graph.now p → IfErr answer (IsRefusal p parts.now front)) }
{
    if parts.len() != 1 {
        return None;
    }
    let part = parts.get(0)?;
    let answer = moved(graph, part)?;
    match answer {
        Ok(triple) => match lone_net(alloc, triple) {
            Ok(net) => Some(Ok(net)),
            Err(NoMemory) => Some(Err(Refusal::NoMemory)),
        },
        Err(fault) => Some(Err(fault.at(front, 1))),
    }
}

/// The net that touches this triple alone.
fn lone_net(alloc: Global, triple: NetTriple) -> Result<Net, NoMemory>
    ensures { IfOk result (λ net. net ≡ lone_net triple) }
{
    let mut triples = NetTriples::with_room(alloc, 1)?;
    triples.push(triple)?;
    Ok(Net {
        dropped: Vertices::new(alloc),
        added: Vertices::new(alloc),
        triples,
    })
}

/// What a part that adds or takes a copy of an edge makes of its triple, or why it isn't taken. `None` exactly for every
/// other part.
fn moved<M>(graph: &Graph<M>, part: &Update) -> Option<Result<NetTriple, Fault>>
    ensures some { MatchOption result (moves_copy part.now ≡ false) (λ _. moves_copy part.now ≡ true) }
    ensures ok { IfSome result (λ answer. IfOk answer (IsLone graph.now part.now)) }
    ensures fault { IfSome result (λ answer. IfErr answer (IsReason graph.now part.now)) }
{
    match *part {
        Update::AddE { u, v, w } => Some(added(graph, u, v, w)),
        Update::DelE { u, v, w } => Some(taken(graph, u, v, w)),
        Update::AddV { .. } | Update::DelV { .. } | Update::SetW { .. } => None,
    }
}

/// One copy more. `NoMemory` comes, too, where the number of copies would pass 2^64 - 1.
fn added<M>(graph: &Graph<M>, u: u64, v: u64, w: u64) -> Result<NetTriple, Fault>
    ensures ok { IfOk result (IsLone graph.now (AddE u v w)) }
    ensures fault { IfErr result (IsReason graph.now (AddE u v w)) }
{
    let (triple, before) = standing(graph, u, v, w)?;
    match before.checked_add(1) {
        Some(after) => Ok(NetTriple {
            triple,
            before,
            after,
        }),
        None => Err(Fault::NoMemory),
    }
}

/// One copy less.
fn taken<M>(graph: &Graph<M>, u: u64, v: u64, w: u64) -> Result<NetTriple, Fault>
    ensures ok { IfOk result (IsLone graph.now (DelE u v w)) }
    ensures fault { IfErr result (IsReason graph.now (DelE u v w)) }
{
    let (triple, before) = standing(graph, u, v, w)?;
    if before == 0 {
        return Err(Fault::NoEdge);
    }
    let after = before - 1;
    Ok(NetTriple {
        triple,
        before,
        after,
    })
}

/// The triple of an edge and its copies, where its numbers are within their limits and both its ends are there. A copy more and
/// a copy less have the same limits and need the same ends.
fn standing<M>(graph: &Graph<M>, u: u64, v: u64, w: u64) -> Result<(Triple, u64), Fault>
    ensures ok { IfOk result (IsStandingEdge graph.now u v w) }
    ensures fault { IfErr result (λ f. IsReason graph.now (AddE u v w) f × IsReason graph.now (DelE u v w) f) }
{
    let part = Update::AddE { u, v, w };
    if let Err(given) = part.within_limits(graph.format()) {
        return Err(Fault::Limit(given));
    }
    let triple = edge(u, v, w);
    if !graph.has_vertex(u) {
        return Err(Fault::NoVertex(u));
    }
    if !graph.has_vertex(v) {
        return Err(Fault::NoVertex(v));
    }
    Ok((triple, graph.copies(triple)))
}
