ghost use Rattle.std.specs.Prelude.{◌≡◌, ◌<◌, ◌≤◌, None, IsTrue, IfOk, length, take, drop};
ghost use Rattle.std.specs.List.{All};
ghost use Rattle.ris_base.specs.Effect.{first_past_limit};
ghost use Rattle.ris_base.specs.Limits.{greatest_of};
ghost use Rattle.ris_base.specs.declared.events.Verdict.TheVariants.{Waiting};
ghost use Rattle.ris_base.specs.declared.graphs.Format.TheVariants.{Two};
ghost use Rattle.ris_graph.specs.Jobs.{AreAscending, HasSession, IsJob, is_job, no_jobs, stripe_of, with_job};

use crate::outs::STRIPES;
use crate::stripes::StripeJob;
use ris_base::{NoMemory, Update, Verdict};
use std::alloc::Global;
use std::marker::Model;

/// The greatest number of jobs: one for each session.
pub(crate) const JOBS: usize = 64;

/// Updates that sessions ask for, at most one of each session, by the stripe of the vertex or of the edge's source; with
/// the verdict of each. It has room for 64 jobs.
#[derive(Drop)]
pub struct Jobs {
    pub(crate) jobs: Vec<StripeJob>,
    pub(crate) verdicts: Vec<Verdict>,
}

impl Model for Jobs {
    ghost use Rattle.std.specs.Prelude.{◌≤◌, List, vec_capacity};
    ghost use Rattle.ris_graph.specs.Jobs.{AreAscending, AreJobs, AreTold, by_stripe};
    ghost use Rattle.ris_graph.specs.declared.stripes.StripeJob.{StripeJob};

    ghost Value = { List (List StripeJob) };

    ghost view = { λ j. by_stripe j.jobs.items };

    ghost invariant = { λ j. AreJobs (by_stripe j.jobs.items) × AreTold (by_stripe j.jobs.items) j.verdicts.items × AreAscending j.jobs.items × (64 ≤ vec_capacity j.jobs) };
}

impl Jobs {
    ghost use Rattle.ris_graph.specs.declared.stripes.StripeJob.{StripeJob};

    /// No jobs, with the memory for all that may come.
    pub fn new(alloc: Global) -> Result<Jobs, NoMemory>
        ensures { IfOk result (λ j. j ≡ no_jobs) }
    {
        let jobs = Vec::with_capacity(alloc, JOBS)?;
        let verdicts = vec![in alloc; Verdict::Waiting; JOBS]?;
        Ok(Jobs { jobs, verdicts })
    }

    /// One job more, which waits: an `AddV`, `AddE` or `DelE` within the limits of format two, of a session that has
    /// none. It comes behind the jobs of lesser sessions of its stripe. It costs a binary search among at most 64 jobs and
    /// the moves of those of greater sessions, and takes no memory.
    pub fn add(&mut self, session: u32, update: Update)
        requires session { session < 64 }
        requires new { ¬ (HasSession self.old session) }
        requires kind { IsTrue (is_job update) }
        requires limits { first_past_limit (greatest_of Two) update ≡ None }
        ensures { self.new ≡ with_job self.old session update }
    {
        let at = place(&self.jobs, session);
        let job = StripeJob {
            session,
            update,
            verdict: Verdict::Waiting,
        };
        let _ = self.jobs.insert(at, job);
        self.verdicts[session as usize] = Verdict::Waiting;
    }

    /// The verdict of a session's job. It is `Waiting` until the phase decides the job. Constant time.
    pub fn verdict(&self, session: u32) -> Verdict
        requires { HasSession self.now session }
        ensures { (job : StripeJob) → IsJob self.now job → job.session ≡ session → result ≡ job.verdict }
    {
        self.verdicts[session as usize]
    }

    /// Takes all jobs out. It keeps its memory.
    pub fn clear(&mut self)
        ensures { self.new ≡ no_jobs }
    {
        self.jobs.clear();
    }
}

/// The place of a session among jobs whose sessions ascend: behind those of lesser sessions. A binary search.
fn place(jobs: &[StripeJob], session: u32) -> usize
    requires { AreAscending jobs.now }
    ensures within { result ≤ length jobs.now }
    ensures lesser { All (λ j. j.session < session) (take result jobs.now) }
    ensures greater { All (λ j. session ≤ j.session) (drop result jobs.now) }
{
    jobs.partition_point(|job| job.session < session)
}

/// The stripe of an update: that of its vertex, or of its edge's source.
pub(crate) fn stripe_of(update: Update) -> usize
    ensures { result ≡ stripe_of update }
{
    let x = match update {
        Update::AddV { x } | Update::DelV { x } => x,
        Update::AddE { u, .. } | Update::DelE { u, .. } | Update::SetW { u, .. } => u,
    };
    x as usize % STRIPES
}
