ghost use Rattle.std.specs.Prelude.{◌≡◌, true};

use crate::crew::{Crew, CrewEnd};
use crate::job::Job;
use crate::tally::Tally;
use std::alloc::Global;

/// A crew that has a thread for each job. It never fails.
#[derive(Debug, Drop)]
pub struct ScopeCrew {
    tally: Tally,
}

impl ScopeCrew {
    /// A crew that has done nothing yet.
    pub fn new() -> ScopeCrew
        ensures jobs_run { result.tally.jobs ≡ 0 }
        ensures turns { result.tally.turns ≡ 0 }
    {
        ScopeCrew {
            tally: Tally::new(),
        }
    }

    /// The count of jobs that were run to their end.
    pub fn jobs_run(&self) -> u64
        ensures { result ≡ self.now.tally.jobs }
    {
        self.tally.jobs
    }

    /// The count of turns that were given.
    pub fn turns(&self) -> u64
        ensures { result ≡ self.now.tally.turns }
    {
        self.tally.turns
    }
}

impl Crew for ScopeCrew {
    ghost faults = { λ _. 0 };

    ghost jobs_run = { λ crew. crew.tally.jobs };

    ghost turns = { λ crew. crew.tally.turns };

    ghost has_threads = { λ _. true };

    fn offer<J: Job>(
        &mut self,
        _alloc: Global,
        jobs: Vec<J>,
    ) -> Result<Result<Vec<J>, CrewEnd>, Vec<J>> {
        Err(jobs)
    }

    fn count(&mut self, jobs: usize, rose: u128) {
        self.tally.count_jobs(jobs);
        self.tally.count_rise(rose);
    }
}
