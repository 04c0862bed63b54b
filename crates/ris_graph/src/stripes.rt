ghost use Rattle.std.specs.Prelude.{◌≡◌, ℕ, ◌+◌, ◌-◌, ◌^◌, ◌<◌, ◌≤◌, ◌/◌, ◌∷◌, ◌++◌, [], None, Some, OnOk, IfOk, length, slice_get, slice_set, vec_len, vec_capacity};
ghost use Rattle.ris_base.specs.Effect.{first_past_limit};
ghost use Rattle.ris_base.specs.Limits.{greatest_of};
ghost use Rattle.ris_base.specs.declared.graphs.Format.TheVariants.{Two};
ghost use Rattle.ris_rows.specs.Neighbours.{IsAscending, copies_of};
ghost use Rattle.ris_rows.specs.RowView.{with_count, inserted};
ghost use Rattle.ris_graph.specs.GraphView.{row_at};
ghost use Rattle.ris_graph.specs.StripeView.{rows_after, HasCopy, HasEditRoom, IsIdle, CanCarry, fresh, edited, declined, CanEdit, CanDecline};
ghost use Rattle.ris_graph.specs.Tables.{IsRoomier};

use crate::jobs::JOBS;
use crate::outs::STRIPES;
use crate::tables::RowTable;
use ris_base::{NoMemory, Triple, Update, Verdict};
use ris_rows::Cursor;
use std::alloc::Global;
use std::marker::Model;

/// An update of a session, and what a parallel phase made of it.
#[derive(Clone, Copy, Debug, PartialEq, Eq)]
pub struct StripeJob {
    pub update: Update,
    pub session: u32,
    pub verdict: Verdict,
}

/// The out rows of every 64th vertex, with jobs: the row of the vertex u stands in the stripe u mod 64 at the place u div
/// 64. It has room for its jobs, so that none of its calls takes memory.
///
/// Its log has the sessions of the jobs that were applied or refused with `NoEdge`, in the order of their verdicts.
#[derive(Drop)]
pub struct Stripe<M> {
    rows: RowTable<M>,
    jobs: Vec<StripeJob>,
    log: Vec<u32>,
}

impl<M> Model for Stripe<M> {
    ghost use Rattle.std.specs.Prelude.{min, vec_capacity};
    ghost use Rattle.ris_graph.specs.StripeView.{StripeView, IsStripe};

    ghost Value = { StripeView };

    ghost view = { λ s. record { rows = s.rows; jobs = s.jobs.items; log = s.log.items; job_room = min 64 (min (vec_capacity s.jobs) (vec_capacity s.log)) } };

    ghost invariant = { λ s. IsStripe s.rows s.jobs.items s.log };
}

impl<M> Stripe<M> {
    ghost use Rattle.ris_graph.specs.declared.stripes.StripeJob.{StripeJob};

    /// A stripe without rows and jobs, with the memory for 64 jobs.
    pub(crate) fn new(alloc: Global) -> Result<Stripe<M>, NoMemory>
        ensures { IfOk result (λ s. s ≡ fresh [] []) }
    {
        let rows = RowTable::new(alloc);
        let jobs = Vec::with_capacity(alloc, JOBS)?;
        let log = Vec::with_capacity(alloc, JOBS)?;
        Ok(Stripe { rows, jobs, log })
    }

    /// Makes `n` places for rows at least, as `RowTable::grow` does.
    pub(crate) fn grow(&mut self, alloc: Global, n: usize) -> Result<(), NoMemory>
        requires { IsIdle self.old }
        ensures idle { IsIdle self.new }
        ensures rows { (k : ℕ) → row_at self.new.rows k ≡ row_at self.old.rows k }
        ensures longer { length self.old.rows ≤ length self.new.rows }
        ensures ok { OnOk result (n ≤ length self.new.rows) }
    {
        self.rows.grow(alloc, n)
    }

    /// A cursor before the first neighbour of the row at a place.
    pub(crate) fn cursor(&self, place: usize) -> Cursor<'_, M>
        ensures items { result ≡ (row_at self.now.rows place).items }
        ensures ascending { IsAscending result }
    {
        self.rows.cursor(place)
    }

    /// Makes room for `n` inserts in the row at a place, as `Row::reserve` does.
    #[inline(always)]
    pub(crate) fn reserve(&mut self, place: usize, n: u64) -> Result<(), NoMemory>
        requires idle { IsIdle self.old }
        requires place { place < length self.old.rows }
        ensures idle { IsIdle self.new }
        ensures table { self.new.rows ≡ slice_set self.old.rows place (row_at self.new.rows place) }
        ensures row { IsRoomier (row_at self.old.rows place) (row_at self.new.rows place) }
        ensures room { OnOk result (n ≤ (row_at self.new.rows place).spare) }
    {
        self.rows.reserve(place, n)
    }

    /// Sets the number of copies of a neighbour in the row at a place, as `Row::put` does.
    pub(crate) fn put(&mut self, place: usize, end: u32, weight: u64, copies: u64)
        requires idle { IsIdle self.old }
        requires place { place < length self.old.rows }
        requires room { copies_of (row_at self.old.rows place).items end weight ≡ 0 → 1 ≤ copies → 1 ≤ (row_at self.old.rows place).spare }
        ensures idle { IsIdle self.new }
        ensures table { self.new.rows ≡ slice_set self.old.rows place (with_count (row_at self.old.rows place) end weight copies) }
    {
        self.rows.put(place, end, weight, copies);
    }

    /// One copy more of a neighbour in the row at a place, as `Row::append` adds it.
    #[inline(always)]
    pub(crate) fn append(&mut self, place: usize, end: u32, weight: u64)
        requires idle { IsIdle self.old }
        requires place { place < length self.old.rows }
        requires room { 1 ≤ (row_at self.old.rows place).spare }
        requires few { copies_of (row_at self.old.rows place).items end weight < 2 ^ 64 - 1 }
        ensures idle { IsIdle self.new }
        ensures table { self.new.rows ≡ slice_set self.old.rows place (inserted (row_at self.old.rows place) end weight) }
    {
        self.rows.append(place, end, weight);
    }

    /// One job more, at the end, in a stripe with the memory for 64. Constant time.
    pub(crate) fn add(&mut self, job: StripeJob)
        requires memory { self.old.job_room ≡ 64 }
        requires log { self.old.log ≡ [] }
        requires few { length self.old.jobs < 64 }
        requires carries { CanCarry self.old.rows (self.old.jobs ++ job ∷ []) }
        ensures { self.new ≡ fresh self.old.rows (self.old.jobs ++ job ∷ []) }
    {
        self.jobs.push_reserved(job);
    }

    /// Takes all jobs out and empties the log. It keeps their memory.
    pub(crate) fn clear(&mut self)
        ensures { self.new ≡ record self.old { jobs = []; log = [] } }
    {
        self.jobs.clear();
        self.log.clear();
    }

    /// Its jobs, as a slice.
    pub(crate) fn job_list(&self) -> &[StripeJob]
        ensures { result.now ≡ self.now.jobs }
    {
        &self.jobs
    }

    /// The number of jobs.
    pub fn jobs(&self) -> usize
        ensures { result ≡ length self.now.jobs }
    {
        self.jobs.len()
    }

    /// Job number `k`, counted from 0: its session, its update and its verdict.
    pub fn job(&self, k: usize) -> (u32, Update, Verdict)
        requires { k < length self.now.jobs }
        ensures { slice_get self.now.jobs k ≡ Some (record { session = result.0; update = result.1; verdict = result.2 }) }
    {
        let job = self.jobs[k];
        (job.session, job.update, job.verdict)
    }

    /// The number of copies of a triple whose source is a vertex of this stripe. A binary search.
    pub fn copies(&self, t: Triple) -> u64
        ensures { result ≡ copies_of (row_at self.now.rows (t.source / 64)).items t.target t.weight }
    {
        self.rows
            .count(t.source as usize / STRIPES, t.target, t.weight)
    }

    /// Applies job number `k`, which waits, and has a copy to take if it is a `DelE`: one out row changes by its update,
    /// and the log grows by its session. It costs a binary search and the moves of an insert or a removal.
    pub fn edit(&mut self, k: usize)
        requires { CanEdit self.old k }
        ensures { self.new ≡ edited self.old k }
    {
        let job = self.jobs[k];
        apply(&mut self.rows, job.update);
        self.jobs[k].verdict = Verdict::Applied;
        note(&mut self.log, job.session);
    }

    /// Gives job number `k`, which waits, the verdict `NoEdge` or `Bounced`. At `NoEdge` the log grows by its session.
    pub fn decline(&mut self, k: usize, verdict: Verdict)
        requires { CanDecline self.old k verdict }
        ensures { self.new ≡ declined self.old k verdict }
    {
        self.jobs[k].verdict = verdict;
        if verdict == Verdict::NoEdge {
            note(&mut self.log, self.jobs[k].session);
        }
    }
}

/// Does an update in the out rows of its stripe.
fn apply<M>(rows: &mut RowTable<M>, update: Update)
    requires limits { first_past_limit (greatest_of Two) update ≡ None }
    requires copy { HasCopy rows.old update }
    requires room { HasEditRoom rows.old update }
    ensures { rows.new ≡ rows_after rows.old update }
{
    match update {
        Update::AddE { u, v, w } => rows.insert(u as usize / STRIPES, v as u32, w),
        Update::DelE { u, v, w } => rows.remove(u as usize / STRIPES, v as u32, w),
        Update::AddV { .. } | Update::DelV { .. } | Update::SetW { .. } => {}
    }
}

/// One session more at the end of a log that has room for it.
fn note(log: &mut Vec<u32>, session: u32)
    requires { vec_len log.old < vec_capacity log.old }
    ensures items { log.new.items ≡ log.old.items ++ session ∷ [] }
    ensures len { vec_len log.new ≡ vec_len log.old + 1 }
    ensures capacity { vec_capacity log.new ≡ vec_capacity log.old }
{
    log.push_reserved(session);
}
