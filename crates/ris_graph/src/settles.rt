ghost use Rattle.std.specs.Prelude.{◌≡◌, ◌<◌, None, fold, length, map, vec_capacity};
ghost use Rattle.std.specs.List.{All};
ghost use Rattle.ris_base.specs.Effect.{first_past_limit};
ghost use Rattle.ris_base.specs.Limits.{greatest_of};
ghost use Rattle.ris_base.specs.declared.graphs.Format.TheVariants.{Two};
ghost use Rattle.ris_graph.specs.Settling.{CanAdd, CanTake, HasAddRoom, HasInRow, judged, with_added, with_taken, with_told};

use crate::stripes::StripeJob;
use crate::tables::RowTable;
use ris_base::{Update, Verdict};

/// Adds to the in rows the copies that applied jobs added. It costs an insert for each.
pub(crate) fn add_copies<M>(ins: &mut RowTable<M>, jobs: &[StripeJob])
    requires { CanAdd ins.old jobs.now }
    ensures { ins.new ≡ fold with_added ins.old jobs.now }
{
    for job in jobs {
        add_copy(ins, *job);
    }
}

/// Adds to the in rows the copy that a job added, where it was applied.
fn add_copy<M>(ins: &mut RowTable<M>, job: StripeJob)
    requires limits { first_past_limit (greatest_of Two) job.update ≡ None }
    requires room { HasAddRoom ins.old 1 job.update }
    ensures { ins.new ≡ with_added ins.old job }
{
    if job.verdict != Verdict::Applied {
        return;
    }
    if let Update::AddE { u, v, w } = job.update {
        ins.insert(v as usize, u as u32, w);
    }
}

/// Takes from the in rows the copies that applied jobs took. It costs a removal for each.
pub(crate) fn take_copies<M>(ins: &mut RowTable<M>, jobs: &[StripeJob])
    requires { CanTake ins.old jobs.now }
    ensures { ins.new ≡ fold with_taken ins.old jobs.now }
{
    for job in jobs {
        take_copy(ins, *job);
    }
}

/// Takes from the in rows the copy that a job took, where it was applied.
fn take_copy<M>(ins: &mut RowTable<M>, job: StripeJob)
    requires limits { first_past_limit (greatest_of Two) job.update ≡ None }
    requires row { HasInRow ins.old job.update }
    ensures { ins.new ≡ with_taken ins.old job }
{
    if job.verdict != Verdict::Applied {
        return;
    }
    if let Update::DelE { u, v, w } = job.update {
        ins.remove(v as usize, u as u32, w);
    }
}

/// Gives each job the verdict of its session.
pub(crate) fn judge(jobs: &mut Vec<StripeJob>, verdicts: &[Verdict])
    requires { All (λ j. j.session < length verdicts.now) jobs.old.items }
    ensures jobs { jobs.new.items ≡ map (judged verdicts.now) jobs.old.items }
    ensures capacity { vec_capacity jobs.new ≡ vec_capacity jobs.old }
{
    for k in 0..jobs.len() {
        jobs[k].verdict = verdicts[jobs[k].session as usize];
    }
}

/// Notes the verdicts of jobs, by session.
pub(crate) fn tell(verdicts: &mut Vec<Verdict>, jobs: &[StripeJob])
    requires { All (λ j. j.session < length verdicts.old.items) jobs.now }
    ensures { verdicts.new.items ≡ fold with_told verdicts.old.items jobs.now }
{
    for job in jobs {
        verdicts[job.session as usize] = job.verdict;
    }
}
