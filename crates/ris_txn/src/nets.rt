ghost use Rattle.std.specs.Prelude.{◌≡◌, ◌+◌, ◌≤◌, List, IfOk, IfErr, IsSome};
ghost use Rattle.ris_base.specs.Falling.{dropped_degrees};
ghost use Rattle.ris_base.specs.Requests.{refusal_of};
ghost use Rattle.ris_base.specs.declared.graphs.PlainGraph.{PlainGraph};
ghost use Rattle.ris_base.specs.declared.updates.Update.{Update};
ghost use Rattle.ris_graph.specs.GraphView.{IsOf};
ghost use Rattle.ris_graph.specs.Nets.{IsNet};
ghost use Rattle.ris_graph.specs.Ticks.{IsRise};
ghost use Rattle.ris_txn.specs.Judging.{IsJudged};
ghost use Rattle.ris_txn.specs.Refusals.{IsRefusal};

use crate::judging::judged;
use crate::overlays::Overlay;
use crate::singles::single;
use ris_base::{Meter, NoMemory, Parts, Refusal};
use ris_graph::{Graph, Net};
use std::alloc::Global;

/// The net of a request on a graph, or its refusal on it with this front. The graph stays as it is.
///
/// The parts are tried one after another, each on what those before it leave. The first one that is refused decides.
/// `NoMemory` may come in place of the refusal or of the net. The meter ticks at most once for each neighbour that a dropped
/// vertex has in the graph, in its two rows, and not at all where a part is refused. The cost is linear in the parts and in
/// those neighbours on average, with a binary search for each triple that a part names. A request whose only part adds or takes
/// a copy of an edge is reckoned at once, without notes.
pub fn net_of<M: Meter>(
    alloc: Global,
    graph: &Graph<M>,
    parts: &Parts,
    front: u64,
    meter: &mut M,
) -> Result<Net, Refusal>
    ensures ok { (p : PlainGraph) → IsOf graph.now p → IfOk result (IsNet p parts.now) }
    ensures refused { (p : PlainGraph) → IsOf graph.now p → IfErr result (IsRefusal p parts.now front) }
    ensures visits { (p : PlainGraph) → IsOf graph.now p → M.ticks meter.new ≤ M.ticks meter.old + dropped_degrees p parts.now }
    ensures rise { (p : PlainGraph) → IsOf graph.now p → IsRise (M.ticks meter.old) (M.ticks meter.new) (dropped_degrees p parts.now) }
    ensures idle { (p : PlainGraph) → IsOf graph.now p → IsSome (refusal_of p parts.now) → M.ticks meter.new ≡ M.ticks meter.old }
{
    if let Some(answer) = single(alloc, graph, parts, front) {
        return answer;
    }
    let overlay = judged(alloc, graph, parts, front)?;
    match collected(alloc, graph, overlay, meter) {
        Ok(net) => Ok(net),
        Err(NoMemory) => Err(Refusal::NoMemory),
    }
}

/// The net that the notes of a judged request and the rows of the vertices that it drops give.
fn collected<M: Meter>(
    alloc: Global,
    graph: &Graph<M>,
    mut overlay: Overlay,
    meter: &mut M,
) -> Result<Net, NoMemory>
    ensures ok { (p : PlainGraph) (parts : List Update) → IsOf graph.now p → IsJudged graph.now parts overlay → IfOk result (IsNet p parts) }
    ensures rise { (p : PlainGraph) (parts : List Update) → IsOf graph.now p → IsJudged graph.now parts overlay
        → IsRise (M.ticks meter.old) (M.ticks meter.new) (dropped_degrees p parts) }
{
    let dropped = overlay.dropped(alloc, graph)?;
    overlay.touch_all(graph, &dropped, meter)?;
    let added = overlay.added(alloc, graph)?;
    let triples = overlay.listed(alloc, graph)?;
    Ok(Net {
        dropped,
        added,
        triples,
    })
}
