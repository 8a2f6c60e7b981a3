ghost use Rattle.std.specs.Prelude.{◌≡◌, ◌<◌, ◌+◌, ℕ, ◌⊎◌, Some, false, true, length, slice_get, IsTrue, ◌↔◌, IfOk, MatchBool};
ghost use Rattle.crew.specs.Schedule.{PlayState, Chance, Reached, Ends, IsOver, IsSpent, begin, whose};

use crate::job::Job;
use std::alloc::{AllocError, Global};
use std::marker::Model;

/// Jobs that are played on one thread, in so many turns at most.
#[derive(Drop)]
pub(crate) struct Play<J> {
    jobs: Vec<J>,
    over: Vec<bool>,
    left: u64,
}

impl<J> Model for Play<J> {
    ghost use Rattle.std.specs.Prelude.{◌≡◌, length};
    ghost use Rattle.crew.specs.Schedule.{PlayState};

    ghost Value = { PlayState J };

    ghost view = { λ p. record { jobs = p.jobs.items; over = p.over.items; left = p.left } };

    ghost invariant = { λ p. length p.over.items ≡ length p.jobs.items };
}

impl<J: Job> Play<J> {
    pub(crate) fn new(alloc: Global, jobs: Vec<J>, most: u64) -> Result<Play<J>, AllocError>
        ensures { IfOk result (λ play. play ≡ begin jobs.items most) }
    {
        let over = vec![in alloc; false; jobs.len()]?;
        Ok(Play {
            jobs,
            over,
            left: most,
        })
    }

    pub(crate) fn into_jobs(self) -> Vec<J>
        ensures { result.items ≡ self.jobs }
    {
        let Play {
            jobs,
            over: _,
            left: _,
        } = self;
        jobs
    }

    fn len(&self) -> usize
        ensures jobs { result ≡ length self.now.jobs }
        ensures over { result ≡ length self.now.over }
    {
        self.jobs.len()
    }

    /// Whether the number names a job of which it isn't known that it has ended.
    fn is_open(&self, at: usize) -> bool
        ensures waiting { IsTrue result ↔ (slice_get self.now.over at ≡ Some false) }
        ensures within { IsTrue result → at < length self.now.jobs }
    {
        matches!(self.over.get(at), Some(false))
    }

    /// Whether all jobs have ended.
    fn is_over(&self) -> bool
        ensures { IsTrue result ↔ IsOver self.now }
    {
        self.over.iter().all(|over| *over)
    }

    /// The chance of the job with this number. False where it needs a turn and none is left.
    fn chance(&mut self, at: usize) -> bool
        ensures { MatchBool result (Chance J.Job at self.old self.new) ((self.new ≡ self.old) × IsSpent self.new) }
    {
        if !self.is_open(at) {
            return true;
        }
        if self.left == 0 {
            return false;
        }
        self.left -= 1;
        let job = &mut self.jobs[at];
        self.over[at] = job.turn();
        true
    }

    /// Chances by the order. False where a turn is missing.
    fn follow(&mut self, order: &[u8]) -> bool
        ensures { let number = whose order.now (length self.old.jobs) in MatchBool result (Reached J.Job number self.old (length order.now) self.new) (Ends J.Job number self.old IsSpent self.new) }
    {
        for number in order {
            if !self.chance(usize::from(*number)) {
                return false;
            }
        }
        true
    }

    /// A chance for each job, from the first one on. False where a turn is missing.
    fn round(&mut self) -> bool
        ensures reached { (number : ℕ → ℕ) (start : PlayState J) (k : ℕ) → ((at : ℕ) → at < length self.old.jobs → number (k + at) ≡ at) → Reached J.Job number start k self.old → MatchBool result (Reached J.Job number start (k + length self.old.jobs) self.new) (Ends J.Job number start IsSpent self.new) }
        ensures spends { IsTrue result → (self.new.left < self.old.left) ⊎ IsOver self.old }
    {
        for at in 0..self.len() {
            if !self.chance(at) {
                return false;
            }
        }
        true
    }

    /// Gives turns by the order, and then round robin, until all jobs have ended. False where a turn is missing.
    pub(crate) fn play(&mut self, order: &[u8]) -> bool
        ensures { let number = whose order.now (length self.old.jobs) in MatchBool result (Ends J.Job number self.old IsOver self.new) (Ends J.Job number self.old IsSpent self.new) }
    {
        if !self.follow(order) {
            return false;
        }
        while !self.is_over() {
            if !self.round() {
                return false;
            }
        }
        true
    }
}
