// A crew that fails after so many runs.
ghost use Rattle.std.specs.Prelude.{false};

use crew::{Crew, CrewEnd, Job, SchedCrew};
use std::alloc::Global;

/// A crew on one thread. After so many runs each further one fails before any job gets a turn.
#[derive(Debug, Drop)]
pub struct TiredCrew {
    crew: SchedCrew,
    runs: u8,
    faults: u64,
}

impl TiredCrew {
    pub fn new(crew: SchedCrew, runs: u8) -> TiredCrew {
        TiredCrew {
            crew,
            runs,
            faults: 0,
        }
    }

    /// The count of jobs that were run to their end.
    pub fn jobs_run(&self) -> u64 {
        self.crew.jobs_run()
    }

    /// The count of turns that were given.
    pub fn turns(&self) -> u64 {
        self.crew.turns()
    }
}

impl Crew for TiredCrew {
    ghost faults = { λ crew. crew.faults };

    ghost jobs_run = { λ crew. crew.crew.tally.jobs };

    ghost turns = { λ crew. crew.crew.tally.turns };

    ghost has_threads = { λ _. false };

    fn offer<J: Job>(
        &mut self,
        alloc: Global,
        jobs: Vec<J>,
    ) -> Result<Result<Vec<J>, CrewEnd>, Vec<J>> {
        if self.runs == 0 {
            self.faults = self.faults.saturating_add(1);
            return Ok(Err(CrewEnd::Failed));
        }
        self.runs -= 1;
        let ended = self.crew.play(alloc, jobs);
        if let Err(CrewEnd::Failed) = &ended {
            self.faults = self.faults.saturating_add(1);
        }
        Ok(ended)
    }

    fn count(&mut self, jobs: usize, rose: u128) {
        self.crew.count(jobs, rose);
    }
}
