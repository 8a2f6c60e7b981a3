// A large source is made, put, recorded and replayed.

ghost use Rattle.std.specs.Prelude.{◌≡◌, ◌≢◌, ◌≤◌, ◌^◌, ◌++◌, codes, length, string_bytes, IfOk, MatchResult};
ghost use Rattle.command_line.specs.Jobs.{record_told};
ghost use Rattle.job_laws.specs.Asks.{HasTree};
ghost use Rattle.job_laws.specs.Makings as spec;
ghost use Rattle.profiles.specs.declared.profile.Profile.TheVariants as profile;
ghost use Rattle.job_laws.specs.Sources.{Compiles, RunsAsSource};
ghost use Rattle.job_runs.specs.Works.{IsIdle, work_of};
ghost use Rattle.job_outcomes.specs.Faults.{CrewShelfStops};
ghost use Rattle.workload.specs.Program.{program_text};

use crate::sources::{compiled, let_go};
use command_line::RecordJob;
use compile_correct::{law_text_erased_walk, law_text_log};
use crew::Crew;
use happens_before::law_ordered_walk;
use job_outcomes::{Keeper, Outcome, Stop};
use job_runs::{recorded_on, replayed_log};
use lock_sound::Weakened;
use profiles::Profile;
use rr_base::List;
use std::alloc::{AllocError, Global};
use std::sync::Wait;
use std::thread::Threads;
use std::time::Clock;
use workload::program_of;

// The name of a made source's log.
fn log_name(alloc: Global, name: &str) -> Result<String, AllocError>
    ensures { IfOk result (λ log. string_bytes log ≡ name.now ++ codes ".log") }
{
    format!(in alloc; "{name}.log")
}

// The recording of a made source, with the defaults of a recording.
fn recording_job<'a>(source: &'a str, log: &'a str) -> RecordJob<'a>
    ensures name { result.source.now ≡ source.now }
    ensures told { log.now ≡ source.now ++ codes ".log" → record_told result ≡ spec.recording_of source.now }
{
    RecordJob {
        source,
        log,
        profile: None,
        slots: 8,
        cells: 16_384,
        limit: 16_777_216,
        budget: 1_000,
        reads: None,
    }
}

// The code of a made source, of which each run and each log's walk is one of the source.
fn made_code(alloc: Global, source: &[u8]) -> Result<Weakened, Stop>
    requires { length source.now ≤ 2 ^ 20 }
    ensures code { Compiles source.now profile.All result }
    ensures runs { IfOk result (RunsAsSource source.now) }
{
    law_text_log();
    law_text_erased_walk();
    law_ordered_walk();
    compiled(alloc, source, &Profile::All)
}

// The code of a source that was put is recorded without input, and its log is put and replayed.
fn made<'a, R: Threads + Wait + Clock + Sync, S: Keeper, C: Crew>(
    rt: &R,
    alloc: Global,
    weakened: &Weakened,
    count: u32,
    bytes: u32,
    job: &RecordJob<'_>,
    shelf: &mut S,
    crew: &mut C,
) -> Result<Outcome<'a>, Stop>
    requires job { record_told job.now ≡ spec.recording_of job.now.source.now }
    requires code { RunsAsSource (program_text count) weakened.now }
    requires bytes { bytes ≡ length (program_text count) }
    ensures outcome { spec.MakesOncePut (work_of C.Crew crew.old) (work_of C.Crew crew.new) count job.now.source.now (S.files shelf.old) (S.files shelf.new) result }
    ensures idle { IsIdle result (work_of C.Crew crew.old) (work_of C.Crew crew.new) }
    ensures faults { MatchResult result (λ _. (S.faults shelf.new ≡ S.faults shelf.old) × (C.faults crew.new ≡ C.faults crew.old)) (λ stop. CrewShelfStops stop (S.faults shelf.old) (S.faults shelf.new) (C.faults crew.old) (C.faults crew.new)) }
    ensures sound { S.IsSound shelf.old → S.IsSound shelf.new }
    ensures kept { S.IsSound shelf.old → result ≢ Err Stop.ShelfFailed }
{
    let input = List::new(alloc);
    match recorded_on(rt, alloc, weakened, Profile::All, input, job, crew) {
        Ok(recording) => replayed_log(rt, alloc, weakened, count, bytes, recording, shelf, crew),
        Err(stop) => Err(stop),
    }
}

/// The outcome of making a source with so many functions, under this name, which is recorded and replayed. The source and its log are
/// put on the way, and stay where a later step fails.
pub(crate) fn make<'a, R: Threads + Wait + Clock + Sync, S: Keeper, C: Crew>(
    rt: &R,
    alloc: Global,
    count: u32,
    name: &str,
    shelf: &mut S,
    crew: &mut C,
) -> Result<Outcome<'a>, Stop>
    requires from { 1 ≤ count }
    requires to { count ≤ 1000 }
    ensures outcome { spec.Makes (work_of C.Crew crew.old) (work_of C.Crew crew.new) count name.now (S.files shelf.old) (S.files shelf.new) result }
    ensures idle { IsIdle result (work_of C.Crew crew.old) (work_of C.Crew crew.new) }
    ensures faults { MatchResult result (λ _. (S.faults shelf.new ≡ S.faults shelf.old) × (C.faults crew.new ≡ C.faults crew.old)) (λ stop. CrewShelfStops stop (S.faults shelf.old) (S.faults shelf.new) (C.faults crew.old) (C.faults crew.new)) }
    ensures sound { S.IsSound shelf.old → S.IsSound shelf.new }
    ensures kept { S.IsSound shelf.old → result ≢ Err Stop.ShelfFailed }
    // Threads run only once the text is accepted.
    ensures runs { result ≡ Err Stop.CrewFailed → HasTree (program_text count) }
    ensures crew { (HasTree (program_text count) → ⊥) → crew.new ≡ crew.old }
{
    let source = program_of(alloc, count)?;
    let log = log_name(alloc, name)?;
    let text = source.as_slice();
    shelf.keep(alloc, name, text)?;
    let weakened = made_code(alloc, text)?;
    let job = recording_job(name, log.as_str());
    let bytes = text.len() as u32;
    let told = made(rt, alloc, &weakened, count, bytes, &job, shelf, crew);
    let_go(weakened);
    told
}
