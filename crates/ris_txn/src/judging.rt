ghost use Rattle.std.specs.Prelude.{◌≡◌, IfOk, IfErr};
ghost use Rattle.ris_base.specs.declared.graphs.PlainGraph.{PlainGraph};
ghost use Rattle.ris_graph.specs.GraphView.{IsOf};
ghost use Rattle.ris_txn.specs.Judging.{IsJudged};
ghost use Rattle.ris_txn.specs.Refusals.{IsRefusal};

use crate::overlays::Overlay;
use ris_base::{Parts, Refusal};
use ris_graph::Graph;
use std::alloc::Global;

/// Judges the parts of a request one after another, each on what those before it leave. It visits nothing.
pub(crate) fn judged<M>(
    alloc: Global,
    graph: &Graph<M>,
    parts: &Parts,
    front: u64,
) -> Result<Overlay, Refusal>
    ensures ok { IfOk result (IsJudged graph.now parts.now) }
    ensures refused { IfErr result (λ answer. (p : PlainGraph) → IsOf graph.now p → IsRefusal p parts.now front answer) }
{
    let mut overlay = Overlay::new(alloc);
    for k in 0..parts.len() {
        let number = k as u32 + 1;
        if let Some(part) = parts.get(k) {
            if let Err(fault) = overlay.apply(graph, part, number) {
                return Err(fault.at(front, number));
            }
        }
    }
    Ok(overlay)
}
