ghost use Rattle.std.specs.Prelude.{◌≡◌, ◌<◌, ◌≤◌, ℕ, List, [], ◌∷◌, IsTrue, None, Some, true, length, map, slice_get, slice_index_or, take};
ghost use Rattle.std.specs.List.{All};
ghost use Rattle.ris_base.specs.Effect.{first_past_limit};
ghost use Rattle.ris_base.specs.Forest.{AreForests};
ghost use Rattle.ris_base.specs.Limits.{greatest_of};
ghost use Rattle.ris_base.specs.Machine.{Decided, verdict_by};
ghost use Rattle.ris_base.specs.Safe.{is_candidate, is_used};
ghost use Rattle.ris_base.specs.declared.graphs.Format.TheVariants.{Two};
ghost use Rattle.ris_base.specs.declared.graphs.PlainGraph.{PlainGraph};
ghost use Rattle.ris_legal.specs.Held.{SaysVerdict};
ghost use Rattle.ris_graph.specs.GraphView.{GraphView, IsOf};
ghost use Rattle.ris_graph.specs.Jobs.{EachJob};
ghost use Rattle.ris_graph.specs.Phase.{IsMerge, IsWorkOf, applied_of, entered_each, stripe_at};
ghost use Rattle.ris_graph.specs.StripeView.{StripeView, job_at};
ghost use Rattle.ris_graph.specs.declared.stripes.StripeJob.{StripeJob};
ghost use Rattle.ris_phase.specs.Cells.{IsFresh, IsLoosenedOf, IsOpen, IsOrder, IsUndecided, all_phased, applied_each, applied_updates, cells, decided_job, logs, phased, phased_once, verdict_in, waits_first};

use ris_base::{Gate, Meter, Triple, Update, Verdict};
use ris_graph::{Loose, Stripe};
use ris_safe::Judge;
use std::thread;
use std::thread::Threads;

/// The number of stripes.
const STRIPES: usize = 64;

/// Decides all jobs of a graph with jobs, in 1 to 64 workers, where none is decided yet. In each stripe the jobs are
/// taken in the order of their sessions. An `AddV` and an `AddE` are applied. A `DelE` gets `NoEdge` where its
/// triple has no copy after the stripe's earlier jobs, `Bounced` where it would take the last one and a forest uses the
/// triple, and else is applied.
///
/// With `c = 64.div_ceil(workers)` the job number j of the phase has the stripes from `j * c` on, at most c of them.
/// There are `64.div_ceil(c)` jobs, which may be fewer than the workers: 32 for 48 workers. Each enters the gate once, with
/// its number, also where its stripes have no jobs. Where no thread can be made, and with one worker, they run one after
/// another. A decision costs a binary search and the moves of an insert or a removal. With several workers a stripe
/// without jobs costs a test, with one nothing. It takes no memory.
pub fn apply<R: Threads + Sync, J: Judge + Sync, G: Gate, M: Meter>(
    rt: &R,
    loose: &mut Loose<M>,
    judge: &J,
    workers: u32,
    gate: &G,
)
    requires some { 1 ≤ workers }
    requires few { workers ≤ 64 }
    requires fresh { IsFresh loose.old }
    ensures stripes { loose.new ≡ all_phased (J.forests judge.now) loose.old }
    ensures work { (g : GraphView) (js : List (List StripeJob)) → IsLoosenedOf g js loose.old → IsWorkOf g js loose.new }
    ensures cells { (g : GraphView) (js : List (List StripeJob)) (p : PlainGraph) (seq : ℕ → ℕ) (m : ℕ)
        → IsLoosenedOf g js loose.old → IsOf g p → m < 64
        → ((stripe_at loose.new m).jobs ≡ cells p (J.forests judge.now) seq [] (slice_index_or js m []))
        × ((stripe_at loose.new m).log ≡ map (λ d. d.entry.session) (logs p (J.forests judge.now) seq [] (slice_index_or js m []))) }
    ensures applied { (g : GraphView) (js : List (List StripeJob)) (p : PlainGraph) (seq : ℕ → ℕ) (m : ℕ)
        → IsLoosenedOf g js loose.old → IsOf g p → m < 64
        → applied_of (stripe_at loose.new m) ≡ applied_updates (logs p (J.forests judge.now) seq [] (slice_index_or js m [])) }

    // In every order that keeps the order of each stripe, each decision is right where it stands, and the applied updates are
    // those by which settling goes.
    ensures merges { (g : GraphView) (js : List (List StripeJob)) (p : PlainGraph) (seq : ℕ → ℕ) (order : List Decided)
        → IsLoosenedOf g js loose.old → IsOf g p → AreForests p (J.specs judge.now) (J.forests judge.now)
        → EachJob (λ j. is_candidate p (J.specs judge.now) (J.forests judge.now) (j.update ∷ []) ≡ true) js
        → IsOrder (λ k. logs p (J.forests judge.now) seq [] (slice_index_or js k [])) order
        → (i : ℕ) (d : Decided) → slice_get order i ≡ Some d
        → SaysVerdict (applied_each p (take i order)) (J.specs judge.now) (J.forests judge.now) d.entry.parts d.verdict }
    ensures settles { (g : GraphView) (js : List (List StripeJob)) (p : PlainGraph) (seq : ℕ → ℕ) (order : List Decided)
        → IsLoosenedOf g js loose.old → IsOf g p → IsOrder (λ k. logs p (J.forests judge.now) seq [] (slice_index_or js k [])) order
        → IsMerge loose.new (applied_updates order) × (applied_each p order ≡ entered_each p (applied_updates order)) }
{
    decide_jobs(rt, loose, judge, workers, gate);
}

/// Decides all jobs: one worker goes over the stripes that have jobs alone, several have shares of all stripes.
fn decide_jobs<R: Threads + Sync, J: Judge + Sync, G: Gate, M: Meter>(
    rt: &R,
    loose: &mut Loose<M>,
    judge: &J,
    workers: u32,
    gate: &G,
)
    requires some { 1 ≤ workers }
    requires few { workers ≤ 64 }
    requires fresh { IsFresh loose.old }
    ensures { loose.new ≡ all_phased (J.forests judge.now) loose.old }
{
    if workers == 1 {
        gate.enter(0);
        decide_in_turn(loose, judge);
    } else {
        decide_by_shares(rt, loose, judge, workers, gate);
    }
}

/// Decides all jobs of the stripes that have jobs, one stripe after another.
fn decide_in_turn<M, J: Judge>(loose: &mut Loose<M>, judge: &J)
    requires { IsFresh loose.old }
    ensures { loose.new ≡ all_phased (J.forests judge.now) loose.old }
{
    for k in 0..loose.jobs() {
        let m = loose.stripe_of_job(k);
        decide_once(&mut loose.stripes_mut()[m], judge);
    }
}

/// Decides all jobs of each stripe, in shares of stripes side by side.
fn decide_by_shares<R: Threads + Sync, J: Judge + Sync, G: Gate, M: Meter>(
    rt: &R,
    loose: &mut Loose<M>,
    judge: &J,
    workers: u32,
    gate: &G,
)
    requires some { 1 ≤ workers }
    requires few { workers ≤ 64 }
    requires fresh { IsFresh loose.old }
    ensures { loose.new ≡ all_phased (J.forests judge.now) loose.old }
{
    let share = STRIPES.div_ceil(workers as usize);
    thread::for_each_chunk_mut(
        rt,
        loose.stripes_mut(),
        share,
        &|start: usize, part: &mut [Stripe<M>]|
            requires { (start < 64) × (1 ≤ share) × All IsUndecided part.now }
            ensures { (k : ℕ) (d : StripeView) → k < length part.entry.now
                → slice_index_or part.exit.now k d ≡ phased (J.forests judge.entry.now) (slice_index_or part.entry.now k d) }
        {
            gate.enter((start / share) as u32);
            decide_part(part, judge);
        },
    );
}

/// Decides all jobs of each stripe of a part.
fn decide_part<M, J: Judge>(part: &mut [Stripe<M>], judge: &J)
    requires { All IsUndecided part.old }
    ensures { (k : ℕ) (d : StripeView) → k < length part.old
        → slice_index_or part.new k d ≡ phased (J.forests judge.now) (slice_index_or part.old k d) }
{
    for stripe in part.iter_mut() {
        decide_all(stripe, judge);
    }
}

/// Decides all jobs of a stripe, unless the first one is decided.
fn decide_once<M, J: Judge>(stripe: &mut Stripe<M>, judge: &J)
    requires { IsTrue (waits_first stripe.old.jobs) → IsUndecided stripe.old }
    ensures { stripe.new ≡ phased_once (J.forests judge.now) stripe.old }
{
    if waits(stripe) {
        decide_all(stripe, judge);
    }
}

/// Whether the first job of a stripe waits.
fn waits<M>(stripe: &Stripe<M>) -> bool
    ensures { result ≡ waits_first stripe.now.jobs }
{
    if stripe.jobs() == 0 {
        return false;
    }
    let (_, _, verdict) = stripe.job(0);
    verdict == Verdict::Waiting
}

/// Decides all jobs of a stripe, in their order.
fn decide_all<M, J: Judge>(stripe: &mut Stripe<M>, judge: &J)
    requires { IsUndecided stripe.old }
    ensures { stripe.new ≡ phased (J.forests judge.now) stripe.old }
{
    for k in 0..stripe.jobs() {
        decide(stripe, k, judge);
    }
}

/// Decides job number `k` of a stripe, which waits.
fn decide<M, J: Judge>(stripe: &mut Stripe<M>, k: usize, judge: &J)
    requires within { k < length stripe.old.jobs }
    requires open { IsOpen (job_at stripe.old k) }
    ensures { stripe.new ≡ decided_job (J.forests judge.now) stripe.old k }
{
    let (_, update, _) = stripe.job(k);
    let verdict = verdict_on(stripe, update, judge);
    if verdict == Verdict::Applied {
        stripe.edit(k);
    } else {
        stripe.decline(k, verdict);
    }
}

/// The verdict on an update of a stripe, where its rows are as they are now.
fn verdict_on<M, J: Judge>(stripe: &Stripe<M>, update: Update, judge: &J) -> Verdict
    requires { first_past_limit (greatest_of Two) update ≡ None }
    ensures { result ≡ verdict_in (J.forests judge.now) stripe.now.rows update }
{
    match update {
        Update::AddV { .. } | Update::AddE { .. } => Verdict::Applied,
        Update::DelE { u, v, w } => {
            let t = Triple {
                source: u as u32,
                target: v as u32,
                weight: w,
            };
            verdict_at(judge, t, stripe.copies(t))
        }
        Update::DelV { .. } | Update::SetW { .. } => Verdict::Bounced,
    }
}

/// The verdict on taking a copy of a triple that has so many.
fn verdict_at<J: Judge>(judge: &J, t: Triple, copies: u64) -> Verdict
    ensures { result ≡ verdict_by (is_used (J.forests judge.now) t) copies }
{
    if copies == 0 {
        Verdict::NoEdge
    } else if copies == 1 && judge.used(t) {
        Verdict::Bounced
    } else {
        Verdict::Applied
    }
}
