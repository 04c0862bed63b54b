ghost use Rattle.std.specs.Prelude.{◌≡◌, [], ◌∷◌, true, false, MatchOption};
ghost use Rattle.ris_analysis.specs.Analyses.{forests_of, specs_of};
ghost use Rattle.ris_base.specs.Safe;
ghost use Rattle.ris_base.specs.declared.graphs.PlainGraph.{PlainGraph};
ghost use Rattle.ris_graph.specs.GraphView.{IsOf};

use ris_analysis::Analyses;
use ris_base::{Parts, Update};
use ris_graph::Graph;
use ris_phase::is_candidate;

/// The update of a request of these parts, where the request is a candidate.
pub(crate) fn candidate_update<M>(
    graph: &Graph<M>,
    analyses: &Analyses,
    parts: &Parts,
) -> Option<Update>
    ensures { (p : PlainGraph) → IsOf graph.now p → MatchOption result
        (Safe.is_candidate p (specs_of analyses.now) (forests_of analyses.now) parts.now ≡ false)
        (λ update. (parts.now ≡ update ∷ []) × (Safe.is_candidate p (specs_of analyses.now) (forests_of analyses.now) parts.now ≡ true)) }
{
    if parts.len() != 1 {
        return None;
    }
    let update = *parts.get(0)?;
    if is_candidate(graph, analyses, &update) {
        Some(update)
    } else {
        None
    }
}
