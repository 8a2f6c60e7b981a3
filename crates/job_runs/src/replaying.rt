// A run of weakened code by a log.

ghost use Rattle.std.specs.Prelude.{◌≡◌, [], IfOk, MatchResult, option_map};
ghost use Rattle.core_run.specs.declared.outcome.Walk.{Walk as WalkOf};
ghost use Rattle.core_run.specs.Walks.{WalkIs};
ghost use Rattle.job_runs.specs.Works.{HasRun, work_of};
ghost use Rattle.walk_answers.specs.Walking.{formula_of as formula_by, outcome_of as outcome_by};
ghost use Rattle.job_outcomes.specs.Faults.{CrewStops};
ghost use Rattle.replayer.specs.Replays.{entries_taken};

use crate::ending::or_stop;
use core_run::Walk;
use crew::{Crew, CrewEnd};
use job_outcomes::{Outcome, Stop};
use lock_sound::{Weakened, law_weakened_runs};
use order_log::Log;
use race_free::law_no_race;
use replayer::replay as follow;
use rr_base::List;
use std::alloc::Global;
use std::sync::Wait;
use std::thread::Threads;
use std::time::Clock;
use thread_interpreter::Formula;
use walk_answers::{formula_of, outcome_of};

// The walk of the log on the weakened code, whose threads follow it side by side.
fn walked<R: Threads + Wait + Clock + Sync, C: Crew>(
    rt: &R,
    alloc: Global,
    weakened: &Weakened,
    log: &Log,
    formula: &Formula,
    crew: &mut C,
) -> Result<Walk, Stop>
    ensures walk { IfOk result (WalkIs weakened.now.weak log.now.setup log.now.entries formula.now) }
    ensures crew { IfOk result (λ it. HasRun log.now.setup.slots (entries_taken log.now.entries it) (work_of C.Crew crew.old) (work_of C.Crew crew.new)) }
    ensures faults { MatchResult result (λ _. C.faults crew.new ≡ C.faults crew.old) (λ stop. CrewStops stop (C.faults crew.old) (C.faults crew.new)) }
    ensures failed { result ≡ Err Stop.CrewFailed → C.jobs_run crew.new ≡ C.jobs_run crew.old }
{
    let code = weakened.code();
    let setup = log.setup();
    let _slots = setup.slots();
    law_weakened_runs();
    law_no_race();
    match follow(rt, alloc, code, setup, log.entries(), formula, crew) {
        Ok(walk) => Ok(walk),
        Err(CrewEnd::Failed) => Err(Stop::CrewFailed),
        Err(CrewEnd::OutOfMemory) => Err(Stop::OutOfMemory),
    }
}

/// What is told of that walk.
pub fn told_walk<'a, R: Threads + Wait + Clock + Sync, C: Crew>(
    rt: &R,
    alloc: Global,
    weakened: &Weakened,
    log: &Log,
    reads: Option<&'a str>,
    crew: &mut C,
) -> Result<Outcome<'a>, Stop>
    ensures outcome { IfOk result (λ o. (walk : WalkOf) × WalkIs weakened.now.weak log.now.setup log.now.entries (formula_by (option_map (λ n. n.now) reads.entry)) walk × HasRun log.now.setup.slots (entries_taken log.now.entries walk) (work_of C.Crew crew.old) (work_of C.Crew crew.new) × (o ≡ outcome_by [] (option_map (λ n. n.now) reads.entry) walk)) }
    ensures faults { MatchResult result (λ _. C.faults crew.new ≡ C.faults crew.old) (λ stop. CrewStops stop (C.faults crew.old) (C.faults crew.new)) }
    ensures failed { result ≡ Err Stop.CrewFailed → C.jobs_run crew.new ≡ C.jobs_run crew.old }
{
    let formula = formula_of(reads);
    match walked(rt, alloc, weakened, log, &formula, crew) {
        Ok(walk) => or_stop(outcome_of(alloc, List::new(alloc), reads, walk)),
        Err(stop) => Err(stop),
    }
}
