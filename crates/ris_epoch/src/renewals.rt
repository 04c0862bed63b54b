ghost use Rattle.std.specs.Prelude.{◌≡◌, ℕ, List, ◌++◌, IfOk, OnErr, OnOk, map, sum};
ghost use Rattle.std.specs.List.{All};
ghost use Rattle.ris_base.specs.Falling.{AreReaches};
ghost use Rattle.ris_base.specs.Forest;
ghost use Rattle.ris_base.specs.Records.{AreChanges};
ghost use Rattle.ris_base.specs.Requests.{entered};
ghost use Rattle.ris_base.specs.declared.analyses.Spec.{Spec};
ghost use Rattle.ris_base.specs.declared.graphs.PlainGraph.{PlainGraph};
ghost use Rattle.ris_base.specs.declared.updates.Update.{Update};
ghost use Rattle.ris_epoch.specs.DriverView.{Fits};
ghost use Rattle.ris_analysis.specs.Analyses.{AllSuit, CanCommit, HasRoom, IsDueFor, all_with_rows, forests_of, specs_of};
ghost use Rattle.ris_epoch.specs.Driving.{change_of, changes_from};
ghost use Rattle.ris_epoch.specs.Renewing.{IsRenewable, IsRenewed};
ghost use Rattle.ris_forest.specs.Commits.{AreAscendingRows};
ghost use Rattle.ris_graph.specs.Nets.{IsNet};
ghost use Rattle.ris_graph.specs.Ticks.{IsRise, ticked};

use ris_analysis::Analyses;
use ris_base::{Change, Changes, Meter, NoMemory};
use ris_forest::{Delta, Deltas};
use ris_graph::{Graph, Net};
use std::alloc::Global;

/// How many rows deltas have together.
fn row_count(deltas: &Deltas) -> u64 {
    let mut count: u64 = 0;
    for a in 0..deltas.len() {
        count = count.wrapping_add(deltas.at(a).len());
    }
    count
}

/// The changes that deltas make, analysis after analysis.
fn changes_of(alloc: Global, deltas: &Deltas) -> Result<Changes, NoMemory>
    ensures changes { IfOk result (λ changes. changes ≡ changes_from 0 deltas.now) }
    ensures ascending { OnOk result (All AreAscendingRows deltas.now) }
{
    let Ok(count) = u32::try_from(deltas.len()) else {
        return Err(NoMemory);
    };
    let mut changes = Changes::with_room(alloc, row_count(deltas))?;
    for a in 0..count {
        push_changes(&mut changes, a, deltas.at(u64::from(a)))?;
    }
    Ok(changes)
}

/// The changes that the delta of analysis number `a` makes, behind others.
fn push_changes(changes: &mut Changes, a: u32, delta: &Delta) -> Result<(), NoMemory>
    ensures changes { OnOk result (changes.new ≡ changes.old ++ map (change_of a) delta.now) }
    ensures ascending { AreAscendingRows delta.now }
{
    for k in 0..delta.len() {
        let row = delta.at(k);
        changes.push(Change {
            analysis: a,
            vertex: row.vertex,
            value: row.value,
            parent: row.parent,
            moved: row.moved,
        })?;
    }
    Ok(())
}

/// Commits a net in the graph, and makes all forests right for it. The changes of the forests are those of the net's request. After
/// `NoMemory` the graph and the forests are as before, with more room perhaps.
pub(crate) fn renew<M: Meter>(
    alloc: Global,
    graph: &mut Graph<M>,
    analyses: &mut Analyses,
    net: &Net,
    meter: &mut M,
) -> Result<Changes, NoMemory>
    requires { IsRenewable graph.old analyses.old net.now }
    ensures ok { IfOk result (λ changes. (p : PlainGraph) (parts : List Update) (specs : List Spec) (forests : List Forest.Forest)
        → Fits graph.old analyses.old p specs forests → IsNet p parts net.now → IsRenewed p parts specs forests graph.new analyses.new changes) }
    ensures err { OnErr result ((p : PlainGraph) (parts : List Update) (specs : List Spec) (forests : List Forest.Forest)
        → Fits graph.old analyses.old p specs forests → IsNet p parts net.now → Fits graph.new analyses.new p specs forests) }
    ensures visits { (p : PlainGraph) (parts : List Update) (specs : List Spec) (forests : List Forest.Forest) (counts : List ℕ)
        → Fits graph.old analyses.old p specs forests → IsNet p parts net.now → AreReaches p parts specs forests counts
        → IsRise (M.ticks meter.old) (M.ticks meter.new) (sum counts) }
    ensures counted { (k : ℕ) × (M.ticks meter.new ≡ ticked (M.ticks meter.old) k) }
{
    analyses.make_room(net)?;
    graph.make_room_for(net)?;
    graph.commit(net);
    match prepared(alloc, graph, analyses, net, meter) {
        Ok(made) => {
            let (deltas, changes) = made;
            analyses.commit(&deltas);
            Ok(changes)
        }
        Err(NoMemory) => {
            graph.undo(net);
            Err(NoMemory)
        }
    }
}

/// The deltas that make the forests right for a net that stands in the graph, and the changes that they make.
fn prepared<M: Meter>(
    alloc: Global,
    graph: &Graph<M>,
    analyses: &Analyses,
    net: &Net,
    meter: &mut M,
) -> Result<(Deltas, Changes), NoMemory>
    requires due { (p : PlainGraph) × (parts : List Update) × IsDueFor graph.now analyses.now net.now p parts }
    requires suits { AllSuit analyses.now graph.now.format }
    requires room { HasRoom graph.now analyses.now }
    ensures right { IfOk result (λ made. (p : PlainGraph) (parts : List Update) → IsDueFor graph.now analyses.now net.now p parts
        → Forest.AreForests (entered p parts) (specs_of analyses.now) (all_with_rows (forests_of analyses.now) made.0)) }
    ensures are { IfOk result (λ made. (p : PlainGraph) (parts : List Update) → IsDueFor graph.now analyses.now net.now p parts
        → AreChanges (specs_of analyses.now) p (entered p parts) made.1) }
    ensures fit { IfOk result (λ made. CanCommit analyses.now made.0) }
    ensures changes { IfOk result (λ made. made.1 ≡ changes_from 0 made.0) }
    ensures visits { (p : PlainGraph) (parts : List Update) (counts : List ℕ) → IsDueFor graph.now analyses.now net.now p parts
        → AreReaches p parts (specs_of analyses.now) (forests_of analyses.now) counts → IsRise (M.ticks meter.old) (M.ticks meter.new) (sum counts) }
    ensures counted { (k : ℕ) × (M.ticks meter.new ≡ ticked (M.ticks meter.old) k) }
{
    let deltas = analyses.prepare(graph, net, meter)?;
    let changes = changes_of(alloc, &deltas)?;
    Ok((deltas, changes))
}
