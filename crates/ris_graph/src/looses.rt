ghost use Rattle.std.specs.Prelude.{◌≡◌, ◌<◌, ◌≤◌, ℕ, List, [], fold, length, map, slice_index_or};
ghost use Rattle.std.specs.List.{All};
ghost use Rattle.ris_base.specs.declared.events.Verdict.TheVariants.{Waiting};
ghost use Rattle.ris_graph.specs.Jobs.{AreJobs, by_stripe};
ghost use Rattle.ris_graph.specs.Phase.{with_jobs};
ghost use Rattle.ris_graph.specs.Settling.{HasPlaces, with_told};
ghost use Rattle.ris_graph.specs.StripeView.{CanCarry, IsIdle, IsWhole};

use crate::graphs::Graph;
use crate::jobs::{Jobs, stripe_of};
use crate::outs::{OutRows, STRIPES};
use crate::settles;
use crate::stripes::{Stripe, StripeJob};
use crate::tables::RowTable;
use ris_base::{Format, Verdict};
use std::alloc::Global;
use std::marker::Model;

/// A graph whose stripes have jobs. Its out rows change by the edits of its stripes, and its in rows lag behind until it is
/// settled. It keeps the jobs as they were given, so that stripes without jobs are never looked at.
#[derive(Drop)]
pub struct Loose<M> {
    alloc: Global,
    format: Format,
    stripes: Vec<Stripe<M>>,
    ins: RowTable<M>,
    present: Vec<bool>,
    jobs: Vec<StripeJob>,
    verdicts: Vec<Verdict>,
}

impl<M> Model for Loose<M> {
    ghost use Rattle.std.specs.Prelude.{◌≡◌, ◌≤◌, length, vec_capacity};
    ghost use Rattle.ris_graph.specs.Jobs.{AreAscending};
    ghost use Rattle.ris_graph.specs.Phase.{LooseView};

    ghost Value = { LooseView };

    ghost view = { λ l. record { format = l.format; stripes = l.stripes.items; ins = l.ins; present = l.present.items; jobs = l.jobs.items } };

    ghost invariant = { λ l. (length l.stripes.items ≡ 64) × AreAscending l.jobs.items × (64 ≤ vec_capacity l.jobs) × (length l.verdicts.items ≡ 64) };
}

impl<M> Graph<M> {
    ghost use Rattle.ris_graph.specs.Jobs.{EachJob, job_count};
    ghost use Rattle.ris_graph.specs.Phase.{IsReady, IsWorkOf, loosened};

    /// Puts jobs into the stripes of a graph. Each of them waits, is within the graph's limits and names vertices of the
    /// graph; the rows that an `AddE` touches have room for as many inserts as there are jobs, and its triple has at most
    /// 2^63 copies. It takes constant time for each job, and no memory.
    pub fn loosen(self, jobs: Jobs) -> Loose<M>
        requires { EachJob (IsReady (job_count jobs) self) jobs }
        ensures is { result ≡ loosened self jobs }
        ensures work { IsWorkOf self jobs result }
    {
        let Graph {
            alloc,
            format,
            outs,
            ins,
            present,
        } = self;
        let OutRows { mut stripes } = outs;
        let Jobs { jobs, verdicts } = jobs;
        load(&mut stripes, &jobs);
        Loose {
            alloc,
            format,
            stripes,
            ins,
            present,
            jobs,
            verdicts,
        }
    }
}

impl<M> Loose<M> {
    ghost use Rattle.std.specs.Borrow.{sem};
    ghost use Rattle.ris_base.specs.declared.graphs.PlainGraph.{PlainGraph};
    ghost use Rattle.ris_base.specs.declared.updates.Update.{Update};
    ghost use Rattle.ris_graph.specs.GraphView.{GraphView, IsOf};
    ghost use Rattle.ris_graph.specs.Jobs.{stripe_of};
    ghost use Rattle.ris_graph.specs.Phase.{AreAccepted, IsMerge, IsWork, IsWorkOf, entered_each};
    ghost use Rattle.ris_graph.specs.StripeView.{no_job};
    ghost use Rattle.ris_graph.specs.Lending.{LendsStripes};
    ghost use Rattle.ris_graph.specs.declared.stripes.StripeJob.{StripeJob};

    /// The number of jobs that were given.
    pub fn jobs(&self) -> usize
        ensures { result ≡ length self.now.jobs }
    {
        self.jobs.len()
    }

    /// The stripe of job number `k`, counted from 0 in the order of sessions. Several jobs may have the same stripe.
    pub fn stripe_of_job(&self, k: usize) -> usize
        requires { k < length self.now.jobs }
        ensures { result ≡ stripe_of (slice_index_or self.now.jobs k no_job).update }
    {
        stripe_of(self.jobs[k].update)
    }

    /// The 64 stripes. Who has this loan may change any of them, by their calls or by putting others in their places.
    pub fn stripes_mut(&mut self) -> &mut [Stripe<M>]
        ensures* writes_back { sem 𝓛 (LendsStripes M.row self.entry result) }
        ensures value { result.now ≡ self.old.stripes }
        ensures stripes { length result.now ≡ 64 }
    {
        self.stripes.as_mut_slice()
    }

    /// The graph and the jobs with their verdicts, after a phase in which each stripe that `loosen` gave was changed by its
    /// own edits and declines alone. In every order that keeps the order of each stripe's log, the applied updates are
    /// accepted one after another, and the graph is the one that they leave. It costs constant time for each job, and a
    /// binary search and the moves of an insert or a removal for each applied one. It takes no memory.
    pub fn settle(self) -> (Graph<M>, Jobs)
        requires { IsWork self }
        ensures graph { (g : GraphView) (js : List (List StripeJob)) (p : PlainGraph) (updates : List Update) → IsWorkOf g js self → IsOf g p → IsMerge self updates
            → AreAccepted p updates × IsOf result.0 (entered_each p updates) }
        ensures jobs { result.1 ≡ map (λ s. s.jobs) self.stripes }
    {
        let Loose {
            alloc,
            format,
            mut stripes,
            mut ins,
            present,
            mut jobs,
            mut verdicts,
        } = self;
        unload(&mut stripes, &mut verdicts, &jobs);
        settles::judge(&mut jobs, &verdicts);
        settles::add_copies(&mut ins, &jobs);
        settles::take_copies(&mut ins, &jobs);
        let graph = Graph {
            alloc,
            format,
            outs: OutRows { stripes },
            ins,
            present,
        };
        (graph, Jobs { jobs, verdicts })
    }
}

/// Gives each job to its stripe, which has the memory for it.
fn load<M>(stripes: &mut Vec<Stripe<M>>, jobs: &[StripeJob])
    requires stripes { length stripes.old.items ≡ 64 }
    requires idle { All IsIdle stripes.old.items }
    requires few { length jobs.now ≤ 64 }
    requires fit { (m : ℕ) → m < 64 → CanCarry (slice_index_or (map (λ s. s.rows) stripes.old.items) m []) (slice_index_or (by_stripe jobs.now) m []) }
    ensures { stripes.new.items ≡ with_jobs (map (λ s. s.rows) stripes.old.items) (by_stripe jobs.now) }
{
    for job in jobs {
        stripes[stripe_of(job.update)].add(*job);
    }
}

/// Takes all jobs out of the stripes of a list of jobs, which are those with jobs, and notes their verdicts by session.
fn unload<M>(stripes: &mut Vec<Stripe<M>>, verdicts: &mut Vec<Verdict>, jobs: &[StripeJob])
    requires whole { All IsWhole stripes.old.items }
    requires jobs { AreJobs (map (λ s. s.jobs) stripes.old.items) }
    requires places { HasPlaces (map (λ s. s.jobs) stripes.old.items) jobs.now }
    requires sessions { length verdicts.old.items ≡ 64 }
    ensures stripes { length stripes.new.items ≡ 64 }
    ensures rows { map (λ s. s.rows) stripes.new.items ≡ map (λ s. s.rows) stripes.old.items }
    ensures idle { All IsIdle stripes.new.items }
    ensures sessions { length verdicts.new.items ≡ 64 }
    ensures told { (m : ℕ) → All (λ j. slice_index_or verdicts.new.items j.session Waiting ≡ j.verdict) (slice_index_or (map (λ s. s.jobs) stripes.old.items) m []) }
{
    for job in jobs {
        empty(&mut stripes[stripe_of(job.update)], verdicts);
    }
}

/// Takes the jobs out of a stripe, and notes their verdicts by session.
fn empty<M>(stripe: &mut Stripe<M>, verdicts: &mut Vec<Verdict>)
    requires { All (λ j. j.session < length verdicts.old.items) stripe.old.jobs }
    ensures stripe { stripe.new ≡ record stripe.old { jobs = []; log = [] } }
    ensures verdicts { verdicts.new.items ≡ fold with_told verdicts.old.items stripe.old.jobs }
{
    settles::tell(verdicts, stripe.job_list());
    stripe.clear();
}
