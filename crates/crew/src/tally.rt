ghost use Rattle.std.specs.Prelude.{◌≡◌, ◌≤◌, ◌<◌, ◌-◌, ◌^◌};
ghost use Rattle.crew.specs.Counts.{RoseBy, total};

use crate::job::Job;

/// What a crew has done: jobs that were run to their end, and turns that were given. Both end at the greatest u64.
#[derive(Debug, Drop)]
pub(crate) struct Tally {
    pub(crate) jobs: u64,
    pub(crate) turns: u64,
}

impl Tally {
    pub(crate) fn new() -> Tally
        ensures jobs { result.jobs ≡ 0 }
        ensures turns { result.turns ≡ 0 }
    {
        Tally { jobs: 0, turns: 0 }
    }

    /// Counts so many jobs.
    pub(crate) fn count_jobs(&mut self, jobs: usize)
        ensures jobs { RoseBy jobs self.old.jobs self.new.jobs }
        ensures turns { self.new.turns ≡ self.old.turns }
    {
        self.jobs = self.jobs.saturating_add(jobs as u64);
    }

    /// Counts so many turns.
    pub(crate) fn count_rise(&mut self, rose: u128)
        ensures turns { RoseBy rose self.old.turns self.new.turns }
        ensures jobs { self.new.jobs ≡ self.old.jobs }
    {
        let rose = u64::try_from(rose).unwrap_or(u64::MAX);
        self.turns = self.turns.saturating_add(rose);
    }

    /// Counts the turns of jobs that had so many in sum before and have so many now.
    pub(crate) fn count_turns(&mut self, before: u128, now: u128)
        requires { before ≤ now }
        ensures turns { RoseBy (now - before) self.old.turns self.new.turns }
        ensures jobs { self.new.jobs ≡ self.old.jobs }
    {
        self.count_rise(now - before);
    }
}

/// The numbers of the jobs' turns, in sum.
pub(crate) fn total_turns<J: Job>(jobs: &[J]) -> u128
    ensures { result ≡ total J.turns jobs.now }
{
    let mut sum = 0;
    for job in jobs {
        sum += u128::from(job.turns());
    }
    sum
}
