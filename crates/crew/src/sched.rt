ghost use Rattle.std.specs.Prelude.{◌≡◌, ◌≤◌, false, IfOk, IfErr, MatchResult, OnErr, vec_len};
ghost use Rattle.std.specs.List.{AllZip};
ghost use Rattle.crew.specs.Counts.{CrewFaults, RoseBy, rises};
ghost use Rattle.crew.specs.Turns.{Finished};
ghost use Rattle.crew.specs.Schedule.{Played, FellShort, IsOver};
ghost use Rattle.crew.specs.declared.crew.CrewEnd.TheVariants as crew_end;

use crate::crew::{Crew, CrewEnd};
use crate::job::Job;
use crate::play::Play;
use crate::tally::{Tally, total_turns};
use rr_base::List;
use std::alloc::Global;

/// A crew that gives turns by an order on the calling thread.
#[derive(Debug, Drop)]
pub struct SchedCrew {
    order: List<u8>,
    most: u64,
    faults: u64,
    tally: Tally,
}

impl SchedCrew {
    /// A crew that gives a turn to each job of `order` in turn, and then turns round robin from job 0. Jobs that have ended
    /// and numbers that name no job are passed over. A run that isn't done in `most` turns is a fault.
    pub fn new(order: List<u8>, most: u64) -> SchedCrew
        ensures order { result.order ≡ order }
        ensures most { result.most ≡ most }
        ensures faults { result.faults ≡ 0 }
        ensures jobs_run { result.tally.jobs ≡ 0 }
        ensures turns { result.tally.turns ≡ 0 }
    {
        SchedCrew {
            order,
            most,
            faults: 0,
            tally: Tally::new(),
        }
    }

    /// The count of faults.
    pub fn faults(&self) -> u64
        ensures { result ≡ self.now.faults }
    {
        self.faults
    }

    /// The count of jobs that were run to their end.
    pub fn jobs_run(&self) -> u64
        ensures { result ≡ self.now.tally.jobs }
    {
        self.tally.jobs
    }

    /// The count of turns that were given.
    pub fn turns(&self) -> u64
        ensures { result ≡ self.now.tally.turns }
    {
        self.tally.turns
    }

    /// Gives turns to the jobs on the calling thread until all have ended, and hands them back in their order.
    pub fn play<J: Job>(&mut self, alloc: Global, jobs: Vec<J>) -> Result<Vec<J>, CrewEnd>
        ensures finished { IfOk result (λ back. AllZip (Finished J.Job) jobs.items back.items) }
        ensures jobs_run { IfOk result (λ _. RoseBy (vec_len jobs) self.old.tally.jobs self.new.tally.jobs) }
        ensures turns { IfOk result (λ back. RoseBy (rises J.turns jobs.items back.items) self.old.tally.turns self.new.tally.turns) }
        ensures err { OnErr result ((self.new.tally.jobs ≡ self.old.tally.jobs) × (self.old.tally.turns ≤ self.new.tally.turns)) }
        ensures faults { MatchResult result (λ _. self.new.faults ≡ self.old.faults) (λ end. CrewFaults end self.old.faults self.new.faults) }
        ensures played { IfOk result (λ back. Played J.Job self.old.order self.old.most IsOver jobs.items back.items) }
        ensures fell_short { IfErr result (λ end. end ≡ crew_end.Failed → FellShort J.Job self.old.order self.old.most jobs.items self.old.tally.turns self.new.tally.turns) }
        ensures same { (self.new.order ≡ self.old.order) × (self.new.most ≡ self.old.most) }
    {
        let count = jobs.len();
        let before = total_turns(jobs.as_slice());
        let mut play = Play::new(alloc, jobs, self.most)?;
        let is_done = play.play(self.order.as_slice());
        let jobs = play.into_jobs();
        self.tally.count_turns(before, total_turns(jobs.as_slice()));
        if !is_done {
            self.faults = self.faults.saturating_add(1);
            return Err(CrewEnd::Failed);
        }
        self.tally.count_jobs(count);
        Ok(jobs)
    }
}

impl Crew for SchedCrew {
    ghost faults = { λ crew. crew.faults };

    ghost jobs_run = { λ crew. crew.tally.jobs };

    ghost turns = { λ crew. crew.tally.turns };

    ghost has_threads = { λ _. false };

    fn offer<J: Job>(
        &mut self,
        alloc: Global,
        jobs: Vec<J>,
    ) -> Result<Result<Vec<J>, CrewEnd>, Vec<J>> {
        Ok(self.play(alloc, jobs))
    }

    fn count(&mut self, jobs: usize, rose: u128) {
        self.tally.count_jobs(jobs);
        self.tally.count_rise(rose);
    }
}
