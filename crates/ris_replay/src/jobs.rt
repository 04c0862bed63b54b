ghost use Rattle.std.specs.Prelude.{◌≡◌, Err, IfOk};
ghost use Rattle.ris_base.specs.declared.jobs.Job.{Job as Said};
ghost use Rattle.ris_replay.specs.Program.{Takes};

use ris_base::{Job, Words};
use ris_words::{WordsError, read_words};
use std::alloc::Global;

/// The job that words say, which is done without threads of its own. `Usage` where they say no such job, unless memory was
/// wanted.
pub(crate) fn inline_job(alloc: Global, words: &Words) -> Result<Job, WordsError>
    ensures ok { IfOk result (λ job. Takes words.now job) }
    ensures usage { (result ≡ Err WordsError.Usage) → (job : Said) → ¬ Takes words.now job }
{
    match read_words(alloc, words)? {
        Job::Replay { threads: true, .. } => Err(WordsError::Usage),
        job => Ok(job),
    }
}
