// A recorded run of weakened code.

ghost use Rattle.std.specs.Prelude.{◌≡◌, ◌≤◌, ◌∷◌, [], length, IfOk, MatchResult, option_map};
ghost use Rattle.command_line.specs.Jobs.{HasRecordLimits, record_told};
ghost use Rattle.command_line.specs.declared.answer.Part.TheVariants as part;
ghost use Rattle.job_runs.specs.Recordings.{HasInput, IsLogged, IsRecorded, IsRunOf};
ghost use Rattle.job_runs.specs.Works.{IsIdle, work_of};
ghost use Rattle.walk_answers.specs.Walking.{outcome_of as outcome_by};
ghost use Rattle.order_log.specs.Log.{AreWithin, HasNames};
ghost use Rattle.order_log.specs.Text.{log_text};
ghost use Rattle.job_outcomes.specs.Faults.{CrewStops, RunStops};
ghost use Rattle.job_outcomes.specs.Steps.{Comes, Gives, IsInput};
ghost use Rattle.std.specs.List.{AllByRecursion};
ghost use Rattle.sync_objects.specs.Names.{Fits};

use command_line::{Part, RecordJob};
use crew::{Crew, CrewEnd};
use happens_before::law_ordered;
use job_outcomes::{Outcome, Put, Stop, input as whole_input};
use lock_sound::{Weakened, law_weakened_constants_fit, law_weakened_is_valid};
use log_limits::law_log_is_within;
use order_log::{Log, write_log};
use profiles::Profile;
use race_free::law_no_race;
use recorder::{Recorded, record_threads};
use rr_base::{Bytes, List, Source};
use std::alloc::{AllocError, Global};
use std::sync::Wait;
use std::thread::Threads;
use std::time::Clock;
use sync_objects::Setup;
use thread_interpreter::Formula;
use walk_answers::{formula_of, outcome_of};

/// The most bytes of an input.
const INPUT_BYTES: u32 = 1_048_576;

// A run of the weakened code, whose log is within the limits of a log.
fn run<R: Threads + Wait + Clock + Sync, C: Crew>(
    rt: &R,
    alloc: Global,
    weakened: &Weakened,
    setup: &Setup,
    budget: u32,
    formula: &Formula,
    crew: &mut C,
) -> Result<Recorded, Stop>
    ensures run { IfOk result (IsRunOf (work_of C.Crew crew.old) (work_of C.Crew crew.new) weakened.now setup.now formula.now) }
    ensures faults { MatchResult result (λ _. C.faults crew.new ≡ C.faults crew.old) (λ stop. CrewStops stop (C.faults crew.old) (C.faults crew.new)) }
    ensures failed { result ≡ Err Stop.CrewFailed → C.jobs_run crew.new ≡ C.jobs_run crew.old }
{
    let code = weakened.code();
    let _slots = setup.slots();
    law_weakened_is_valid();
    law_weakened_constants_fit();
    law_no_race();
    law_ordered();
    law_log_is_within();
    match record_threads(rt, alloc, code, setup, budget, formula, crew) {
        Ok(recorded) => Ok(recorded),
        Err(CrewEnd::Failed) => Err(Stop::CrewFailed),
        Err(CrewEnd::OutOfMemory) => Err(Stop::OutOfMemory),
    }
}

/// A recording: its log, and what it puts and tells.
#[derive(Debug, Drop)]
pub struct Recording<'a> {
    pub log: Log,
    pub outcome: Outcome<'a>,
}

// What a run leaves, with the profile of its code: its log, which is put, and what is told.
fn told<'a>(
    alloc: Global,
    recorded: Recorded,
    setup: Setup,
    profile: Profile,
    job: &RecordJob<'a>,
) -> Result<Recording<'a>, AllocError>
    requires names { HasNames profile }
    requires fitting { AllByRecursion (λ e. Fits e.op e.obj) recorded.entries }
    requires within { AreWithin setup recorded.entries }
    ensures log { IfOk result (λ it. it.log ≡ record { setup = setup; profile = profile; entries = recorded.entries }) }
    ensures outcome { IfOk result (λ it. it.outcome ≡ outcome_by (record { name = job.now.log.now; content = log_text (record { setup = setup; profile = profile; entries = recorded.entries }) } ∷ []) (option_map (λ n. n.now) job.now.reads) recorded.walk) }
{
    let Recorded { entries, walk } = recorded;
    let log = Log::new(setup, profile, entries);
    let mut puts = List::new(alloc);
    puts.push(Put::new(job.log, write_log(alloc, &log)?))?;
    let outcome = outcome_of(alloc, puts, job.reads, walk)?;
    Ok(Recording { log, outcome })
}

/// The recording of weakened code on an input.
pub fn recorded_on<'a, R: Threads + Wait + Clock + Sync, C: Crew>(
    rt: &R,
    alloc: Global,
    weakened: &Weakened,
    profile: Profile,
    input: Bytes,
    job: &RecordJob<'a>,
    crew: &mut C,
) -> Result<Recording<'a>, Stop>
    requires limits { HasRecordLimits (record_told job.now) }
    requires short { length input ≤ 1048576 }
    requires names { HasNames profile }
    ensures outcome { IfOk result (λ it. IsLogged (work_of C.Crew crew.old) (work_of C.Crew crew.new) (record_told job.now) profile weakened.now input it.log it.outcome) }
    ensures faults { MatchResult result (λ _. C.faults crew.new ≡ C.faults crew.old) (λ stop. CrewStops stop (C.faults crew.old) (C.faults crew.new)) }
    ensures failed { result ≡ Err Stop.CrewFailed → C.jobs_run crew.new ≡ C.jobs_run crew.old }
{
    let setup = Setup::new(job.slots, job.cells, job.limit, input);
    let formula = formula_of(job.reads);
    match run(rt, alloc, weakened, &setup, job.budget, &formula, crew) {
        Ok(recorded) => Ok(told(alloc, recorded, setup, profile, job)?),
        Err(stop) => Err(stop),
    }
}

/// The recording of weakened code, whose input comes first.
pub fn recorded_code<'a, R: Threads + Wait + Clock + Sync, I: Source, C: Crew>(
    rt: &R,
    alloc: Global,
    weakened: &Weakened,
    profile: Profile,
    job: &RecordJob<'a>,
    input: &mut I,
    crew: &mut C,
) -> Result<Outcome<'a>, Stop>
    requires limits { HasRecordLimits (record_told job.now) }
    requires names { HasNames profile }
    ensures outcome { Gives (Comes (IsInput (I.left input.old) 1048576 part.Input) (IsRecorded (work_of C.Crew crew.old) (work_of C.Crew crew.new) (record_told job.now) profile weakened.now)) result }
    ensures idle { IsIdle result (work_of C.Crew crew.old) (work_of C.Crew crew.new) }
    ensures faults { MatchResult result (λ _. (I.faults input.new ≡ I.faults input.old) × (C.faults crew.new ≡ C.faults crew.old)) (λ stop. RunStops stop (I.faults input.old) (I.faults input.new) (C.faults crew.old) (C.faults crew.new)) }
    // Threads run only once the input is accepted.
    ensures asks { result ≡ Err Stop.CrewFailed → HasInput (I.left input.old) }
    ensures crew { (HasInput (I.left input.old) → ⊥) → crew.new ≡ crew.old }
{
    let bytes = whole_input(alloc, input, INPUT_BYTES, Part::Input)?;
    match recorded_on(rt, alloc, weakened, profile, bytes, job, crew) {
        Ok(recording) => Ok(recording.outcome),
        Err(stop) => Err(stop),
    }
}
