ghost use Rattle.std.specs.Prelude.{◌≡◌, ◌<◌, ◌≤◌, ℕ, List, [], length, slice_index_or};
ghost use Rattle.ris_analysis.specs.Analyses.{forests_of};
ghost use Rattle.ris_base.specs.Machine.{Decided};
ghost use Rattle.ris_base.specs.declared.graphs.PlainGraph.{PlainGraph};
ghost use Rattle.ris_graph.specs.GraphView.{IsOf};
ghost use Rattle.ris_graph.specs.Jobs.{EachJob, job_count};
ghost use Rattle.ris_graph.specs.Phase.{IsReady};
ghost use Rattle.ris_phase.specs.Cells.{IsOrder, applied_each, cells, logs};

use ris_analysis::Analyses;
use ris_base::{Gate, Meter};
use ris_graph::{Graph, Jobs};
use ris_phase::apply;
use std::thread::Threads;

/// Decides jobs, for which there is room, in 1 to 64 workers. The graph is then that of the applied ones, in every order that
/// keeps that of each stripe. It takes no memory.
pub(crate) fn decided<R: Threads + Sync, G: Gate, M: Meter>(
    rt: &R,
    graph: Graph<M>,
    jobs: Jobs,
    analyses: &Analyses,
    workers: u32,
    gate: &G,
) -> (Graph<M>, Jobs)
    requires ready { EachJob (IsReady (job_count jobs) graph) jobs }
    requires some { 1 ≤ workers }
    requires few { workers ≤ 64 }
    ensures graph { (p : PlainGraph) (seq : ℕ → ℕ) (order : List Decided) → IsOf graph p
        → IsOrder (λ k. logs p (forests_of analyses.now) seq [] (slice_index_or jobs k [])) order → IsOf result.0 (applied_each p order) }
    ensures cells { (p : PlainGraph) (seq : ℕ → ℕ) (m : ℕ) → IsOf graph p → m < 64
        → slice_index_or result.1 m [] ≡ cells p (forests_of analyses.now) seq [] (slice_index_or jobs m []) }
    ensures stripes { length result.1 ≡ 64 }
{
    let mut loose = graph.loosen(jobs);
    apply(rt, &mut loose, analyses, workers, gate);
    loose.settle()
}
