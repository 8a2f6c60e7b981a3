ghost use Rattle.std.specs.Prelude.{◌≡◌, ◌≤◌, ℕ, Bool, is_err, IfOk, IfErr, MatchResult, OnErr, vec_len};
ghost use Rattle.std.specs.List.{AllZip};
ghost use Rattle.crew.specs.Counts.{CrewFaults, RoseBy, rises};
ghost use Rattle.crew.specs.Turns.{Finished};
ghost use Rattle.crew.specs.declared.crew.CrewEnd.TheVariants as crew_end;

use crate::job::Job;
use crate::threads::in_threads;
use std::alloc::{AllocError, Global};
use std::sync::Wait;
use std::thread::Threads;
use std::time::Clock;
use thiserror::Error;

/// Why a crew hands back no jobs.
#[derive(Clone, Copy, Debug, PartialEq, Eq, Error)]
pub enum CrewEnd {
    /// A fault of the crew, which its count of faults shows too.
    #[error("the crew failed")]
    Failed,
    #[error("out of memory")]
    OutOfMemory,
}

impl From<AllocError> for CrewEnd {
    ghost from_gives = { λ _ end. end ≡ crew_end.OutOfMemory };

    fn from(_error: AllocError) -> CrewEnd {
        CrewEnd::OutOfMemory
    }
}

/// Who runs jobs to their end.
pub trait Crew {
    /// The count of faults.
    ghost faults: { Self → ℕ };

    /// The count of jobs that were run to their end.
    ghost jobs_run: { Self → ℕ };

    /// The count of turns that were given.
    ghost turns: { Self → ℕ };

    /// Whether each job is to have a thread of its own.
    ghost has_threads: { Self → Bool };

    /// Gives turns to the jobs on the calling thread until all have ended, and hands them back in their order. Err with the
    /// jobs as they were given where each is to have a thread of its own.
    fn offer<J: Job>(
        &mut self,
        alloc: Global,
        jobs: Vec<J>,
    ) -> Result<Result<Vec<J>, CrewEnd>, Vec<J>>
        ensures threads { is_err result ≡ has_threads self.old }
        ensures kept { IfErr result (λ kept. (kept ≡ jobs) × (self.new ≡ self.old)) }
        ensures finished { IfOk result (λ ended. IfOk ended (λ back. AllZip (Finished J.Job) jobs.items back.items)) }
        ensures jobs_run { IfOk result (λ ended. IfOk ended (λ _. RoseBy (vec_len jobs) (jobs_run self.old) (jobs_run self.new))) }
        ensures turns { IfOk result (λ ended. IfOk ended (λ back. RoseBy (rises J.turns jobs.items back.items) (turns self.old) (turns self.new))) }
        ensures err { IfOk result (λ ended. OnErr ended ((jobs_run self.new ≡ jobs_run self.old) × (turns self.old ≤ turns self.new))) }
        ensures faults { IfOk result (λ ended. MatchResult ended (λ _. faults self.new ≡ faults self.old) (λ end. CrewFaults end (faults self.old) (faults self.new))) };

    /// Counts so many jobs that were run in threads, and so many turns that they were given.
    fn count(&mut self, jobs: usize, rose: u128)
        ensures jobs_run { RoseBy jobs (jobs_run self.old) (jobs_run self.new) }
        ensures turns { RoseBy rose (turns self.old) (turns self.new) }
        ensures faults { faults self.new ≡ faults self.old };

    /// Runs the jobs until all have ended, and hands them back in their order.
    final fn run<R: Threads + Wait + Clock + Sync, J: Job + Send>(
        &mut self,
        rt: &R,
        alloc: Global,
        jobs: Vec<J>,
    ) -> Result<Vec<J>, CrewEnd>
        ensures finished { IfOk result (λ back. AllZip (Finished J.Job) jobs.items back.items) }
        ensures jobs_run { IfOk result (λ _. RoseBy (vec_len jobs) (jobs_run self.old) (jobs_run self.new)) }
        ensures turns { IfOk result (λ back. RoseBy (rises J.turns jobs.items back.items) (turns self.old) (turns self.new)) }
        ensures err { OnErr result ((jobs_run self.new ≡ jobs_run self.old) × (turns self.old ≤ turns self.new)) }
        ensures faults { MatchResult result (λ _. faults self.new ≡ faults self.old) (λ end. CrewFaults end (faults self.old) (faults self.new)) }
    {
        match self.offer(alloc, jobs) {
            Ok(ended) => ended,
            Err(jobs) => run_in_threads(self, rt, alloc, jobs),
        }
    }
}

/// The jobs of a crew with threads.
fn run_in_threads<C: Crew, R: Threads + Wait + Clock + Sync, J: Job + Send>(
    crew: &mut C,
    rt: &R,
    alloc: Global,
    jobs: Vec<J>,
) -> Result<Vec<J>, CrewEnd>
    ensures finished { IfOk result (λ back. AllZip (Finished J.Job) jobs.items back.items) }
    ensures jobs_run { IfOk result (λ _. RoseBy (vec_len jobs) (C.jobs_run crew.old) (C.jobs_run crew.new)) }
    ensures turns { IfOk result (λ back. RoseBy (rises J.turns jobs.items back.items) (C.turns crew.old) (C.turns crew.new)) }
    ensures faults { IfOk result (λ _. C.faults crew.new ≡ C.faults crew.old) }
    ensures err { OnErr result (crew.new ≡ crew.old) }
    ensures sound { IfErr result (λ end. end ≡ CrewEnd.OutOfMemory) }
{
    let count = jobs.len();
    let (back, rose) = in_threads(rt, alloc, jobs)?;
    crew.count(count, rose);
    Ok(back)
}
