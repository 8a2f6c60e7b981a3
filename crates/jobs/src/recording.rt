// A recorded run of a source.

ghost use Rattle.std.specs.Prelude.{◌≡◌, ◌≤◌, ◌^◌, length, MatchResult, Some};
ghost use Rattle.command_line.specs.Jobs.{HasRecordLimits, record_told};
ghost use Rattle.command_line.specs.Jobs.Asked.{Record};
ghost use Rattle.job_runs.specs.Recordings.{HasInput};
ghost use Rattle.job_runs.specs.Works.{IsIdle, work_of};
ghost use Rattle.job_laws.specs.Asks.{AsksCrew, AsksInput, HasTree};
ghost use Rattle.job_laws.specs.Moments.{CountsFor, moment};
ghost use Rattle.job_laws.specs.Readings.{ReadsProfile};
ghost use Rattle.job_laws.specs.Recordings.{RecordsInput};
ghost use Rattle.job_laws.specs.Sources.{IsTree};
ghost use Rattle.job_laws.specs.Wants.{LacksEither};
ghost use Rattle.job_profiles.specs.Profiles.{LacksProfile, named as named_of};
ghost use Rattle.order_log.specs.Log.{HasNames};
ghost use Rattle.job_outcomes.specs.Faults.{RunStops};
ghost use Rattle.job_outcomes.specs.Steps.{Comes, Gives};

use crate::sources::{SOURCE_BYTES, compiled, let_go};
use command_line::{Part, RecordJob};
use compile_correct::law_text_log;
use crew::Crew;
use happens_before::law_ordered_walk;
use job_outcomes::{Keeper, Outcome, Stop, file};
use job_profiles::{named, profile_of};
use job_runs::recorded_code;
use profiles::Profile;
use rr_base::Source;
use std::alloc::Global;
use std::sync::Wait;
use std::thread::Threads;
use std::time::Clock;

// The outcome of a source's bytes for this profile.
fn recorded<'a, R: Threads + Wait + Clock + Sync, I: Source, C: Crew>(
    rt: &R,
    alloc: Global,
    source: &[u8],
    profile: Profile,
    job: &RecordJob<'a>,
    input: &mut I,
    crew: &mut C,
) -> Result<Outcome<'a>, Stop>
    requires limits { HasRecordLimits (record_told job.now) }
    requires short { length source.now ≤ 2 ^ 20 }
    requires names { HasNames profile }
    ensures outcome { Gives (Comes (IsTree source.now) (RecordsInput (work_of C.Crew crew.old) (work_of C.Crew crew.new) (I.left input.old) (record_told job.now) profile)) result }
    ensures idle { IsIdle result (work_of C.Crew crew.old) (work_of C.Crew crew.new) }
    ensures faults { MatchResult result (λ _. (I.faults input.new ≡ I.faults input.old) × (C.faults crew.new ≡ C.faults crew.old)) (λ stop. RunStops stop (I.faults input.old) (I.faults input.new) (C.faults crew.old) (C.faults crew.new)) }
    ensures reads { result ≡ Err Stop.InputFailed → HasTree source.now }
    ensures runs { result ≡ Err Stop.CrewFailed → HasTree source.now × HasInput (I.left input.old) }
    ensures input { (HasTree source.now → ⊥) → input.new ≡ input.old }
    ensures crew { (HasTree source.now × HasInput (I.left input.old) → ⊥) → crew.new ≡ crew.old }
{
    law_text_log();
    law_ordered_walk();
    match compiled(alloc, source, &profile) {
        Ok(weakened) => {
            let told = recorded_code(rt, alloc, &weakened, profile, job, input, crew);
            let_go(weakened);
            told
        }
        Err(stop) => Err(stop),
    }
}

/// The outcome of a recording of a source by its name.
pub(crate) fn record_source<'a, R: Threads + Wait + Clock + Sync, I: Source, S: Keeper, C: Crew>(
    rt: &R,
    alloc: Global,
    job: &RecordJob<'a>,
    input: &mut I,
    shelf: &mut S,
    crew: &mut C,
) -> Result<Outcome<'a>, Stop>
    requires limits { HasRecordLimits (record_told job.now) }
    ensures outcome { let r = record_told job.now in Gives (ReadsProfile (S.files shelf.old) r.source r.profile (λ p. RecordsInput (work_of C.Crew crew.old) (work_of C.Crew crew.new) (I.left input.old) r (named_of p))) result }
    ensures idle { IsIdle result (work_of C.Crew crew.old) (work_of C.Crew crew.new) }
    ensures files { S.files shelf.new ≡ S.files shelf.old }
    ensures faults { CountsFor (moment S.Shelf I.Source C.Crew shelf.old input.old crew.old) (moment S.Shelf I.Source C.Crew shelf.new input.new crew.new) result }
    ensures sound { S.IsSound shelf.old → S.IsSound shelf.new }
    ensures lacks { S.IsSound shelf.old → result ≡ Err Stop.ShelfFailed → LacksEither (S.files shelf.old) job.now.source.now (LacksProfile (S.files shelf.old) (record_told job.now).profile) }
    // The input is read only once the source and the profile are accepted, and threads run only once the input is.
    ensures reads { result ≡ Err Stop.InputFailed → AsksInput (S.files shelf.old) (Some (Record (record_told job.now))) }
    ensures runs { result ≡ Err Stop.CrewFailed → AsksCrew (S.files shelf.old) (I.left input.old) (Some (Record (record_told job.now))) }
    ensures input { (AsksInput (S.files shelf.old) (Some (Record (record_told job.now))) → ⊥) → input.new ≡ input.old }
    ensures crew { (AsksCrew (S.files shelf.old) (I.left input.old) (Some (Record (record_told job.now))) → ⊥) → crew.new ≡ crew.old }
{
    let text = file(alloc, shelf, job.source, SOURCE_BYTES, Part::Source)?;
    let profile = profile_of(alloc, shelf, job.profile)?;
    let profile = named(alloc, &profile)?;
    recorded(rt, alloc, text.as_slice(), profile, job, input, crew)
}
