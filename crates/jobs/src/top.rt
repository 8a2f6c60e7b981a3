// The whole call: from words to the files that are put, what is written, and the status.

ghost use Rattle.std.specs.Prelude.{◌≡◌, map, string_bytes, option_map, IfSome, IsTrue, Some};
ghost use Rattle.command_line.specs.Jobs.{HasLimits, job_of as job_by, told};
ghost use Rattle.job_laws.specs.Asks.{AsksCrew, AsksInput};
ghost use Rattle.job_laws.specs.Headline.{Headline};
ghost use Rattle.job_laws.specs.Jobs.{is_status};
ghost use Rattle.job_laws.specs.Moments.{ComesFor, CountsFor, EndsFor, StopsFor, moment, sight_of};
ghost use Rattle.job_laws.specs.Wants.{LacksFile};
ghost use Rattle.rr_base.specs.Faults.{Rose};

use crate::chaining::chain_log;
use crate::checkpoints::{go_on_from, keep_state};
use crate::making::make;
use crate::profiling::profile_log;
use crate::races::races;
use crate::recording::record_source;
use crate::replaying::replay;
use crate::watching::watch_log;
use crate::weak_locks::weak_locks;
use command_line::{Answer, Job, job_of, tell_answer};
use crew::Crew;
use job_outcomes::{Keeper, Outcome, Stop, finish, tell_stop};
use rr_base::{Sink, Source};
use std::alloc::{AllocError, Global};
use std::sync::Wait;
use std::thread::Threads;
use std::time::Clock;

// The outcome of a job.
fn outcome_of_job<'a, R: Threads + Wait + Clock + Sync, I: Source, S: Keeper, C: Crew>(
    rt: &R,
    alloc: Global,
    job: Job<'a>,
    input: &mut I,
    shelf: &mut S,
    crew: &mut C,
) -> Result<Outcome<'a>, Stop>
    requires { HasLimits (told job) }
    ensures outcome { ComesFor (told job.entry) (moment S.Shelf I.Source C.Crew shelf.old input.old crew.old) (moment S.Shelf I.Source C.Crew shelf.new input.new crew.new) result }
    ensures faults { CountsFor (moment S.Shelf I.Source C.Crew shelf.old input.old crew.old) (moment S.Shelf I.Source C.Crew shelf.new input.new crew.new) result }
    ensures causes { StopsFor (told job.entry) (moment S.Shelf I.Source C.Crew shelf.old input.old crew.old) result }
    ensures sound { S.IsSound shelf.old → S.IsSound shelf.new }
    ensures lacks { S.IsSound shelf.old → result ≡ Err Stop.ShelfFailed → LacksFile (S.files shelf.old) (Some (told job.entry)) }
    ensures input { (AsksInput (S.files shelf.old) (Some (told job.entry)) → ⊥) → input.new ≡ input.old }
    ensures crew { (AsksCrew (S.files shelf.old) (I.left input.old) (Some (told job.entry)) → ⊥) → crew.new ≡ crew.old }
{
    match job {
        Job::Races { source } => races(alloc, source, shelf),
        Job::Weaken { source, profile } => weak_locks(alloc, source, profile, shelf),
        Job::Replay { source, log, reads } => { replay(rt, alloc, source, log, reads, shelf, crew) }
        Job::Record(job) => record_source(rt, alloc, &job, input, shelf, crew),
        Job::Profile { source, log, name } => profile_log(alloc, source, log, name, shelf),
        Job::Watch {
            source,
            log,
            formula,
        } => watch_log(alloc, source, log, formula, shelf),
        Job::Chain {
            source,
            log,
            one,
            other,
        } => chain_log(alloc, source, log, one, other, shelf),
        Job::Checkpoint {
            source,
            log,
            count,
            name,
        } => keep_state(alloc, source, log, count, name, shelf),
        Job::Resume { source, log, name } => go_on_from(alloc, source, log, name, shelf),
        Job::Make { count, name } => make(rt, alloc, count, name, shelf, crew),
    }
}

// Does a job, where there is one, and tells what it comes to.
fn do_job<'a, R: Threads + Wait + Clock + Sync, I: Source, O: Sink, S: Keeper, C: Crew>(
    rt: &R,
    alloc: Global,
    found: Option<Job<'a>>,
    input: &mut I,
    out: &mut O,
    shelf: &mut S,
    crew: &mut C,
) -> u8
    requires { IfSome found (λ job. HasLimits (told job)) }
    ensures ends { EndsFor (option_map told found.entry) (moment S.Shelf I.Source C.Crew shelf.old input.old crew.old) (moment S.Shelf I.Source C.Crew shelf.new input.new crew.new) (sight_of O.Sink out.old) (sight_of O.Sink out.new) result }
    ensures status { IsTrue (is_status result) }
    // Each of these comes only from a fault of its object.
    ensures read_fault { result ≡ 7 → Rose (I.faults input.old) (I.faults input.new) }
    ensures write_fault { result ≡ 8 → Rose (O.faults out.old) (O.faults out.new) }
    ensures shelf_fault { result ≡ 9 → Rose (S.faults shelf.old) (S.faults shelf.new) }
    ensures crew_fault { result ≡ 10 → Rose (C.faults crew.old) (C.faults crew.new) }
    // A sound shelf fails only for want of a file that the job reads.
    ensures lacks { S.IsSound shelf.old → result ≡ 9 → LacksFile (S.files shelf.old) (option_map told found.entry) }
    ensures input { (AsksInput (S.files shelf.old) (option_map told found.entry) → ⊥) → input.new ≡ input.old }
    ensures crew { (AsksCrew (S.files shelf.old) (I.left input.old) (option_map told found.entry) → ⊥) → crew.new ≡ crew.old }
{
    let Some(job) = found else {
        return tell_answer(alloc, out, Answer::Usage);
    };
    match outcome_of_job(rt, alloc, job, input, shelf, crew) {
        Ok(outcome) => finish(alloc, outcome, shelf, out),
        Err(stop) => tell_stop(alloc, out, stop),
    }
}

/// Does what the words after the program's name ask for, and answers the exit status: 0 where the run ended, or the listing, the
/// profile, the access, the chain or the checkpoint was written, 1 where the words are no job, 2 where the source is refused, 3 where a thread trapped, 4 where the log is refused, 5
/// where it isn't one of this program, 6 where the profile is refused, 7 where the input failed, 8 where the sink did, 9 where the
/// shelf did, 10 where the crew did, 11 where a file or the input has too many bytes, 12 without memory, 13 where the checkpoint is
/// refused. Nothing is put but where the run ended or a thread trapped, a checkpoint of a log, and a made source and its log, which are put on the way. Only a recording touches `input`, and
/// only a recording, a replay and the making of a source have the crew run threads: a job for each slot, with a turn for each
/// entry of the log, or more; a refusal comes before that.
pub fn chimera<R: Threads + Wait + Clock + Sync, I: Source, O: Sink, S: Keeper, C: Crew>(
    rt: &R,
    alloc: Global,
    words: &[String],
    input: &mut I,
    out: &mut O,
    shelf: &mut S,
    crew: &mut C,
) -> u8
    ensures ends { EndsFor (job_by (map string_bytes words.now)) (moment S.Shelf I.Source C.Crew shelf.old input.old crew.old) (moment S.Shelf I.Source C.Crew shelf.new input.new crew.new) (sight_of O.Sink out.old) (sight_of O.Sink out.new) result }
    // What is promised of recordings and replays.
    ensures headline { Headline (job_by (map string_bytes words.now)) (moment S.Shelf I.Source C.Crew shelf.old input.old crew.old) (moment S.Shelf I.Source C.Crew shelf.new input.new crew.new) (sight_of O.Sink out.old) (sight_of O.Sink out.new) result }
    ensures status { IsTrue (is_status result) }
    // Each of these comes only from a fault of its object.
    ensures read_fault { result ≡ 7 → Rose (I.faults input.old) (I.faults input.new) }
    ensures write_fault { result ≡ 8 → Rose (O.faults out.old) (O.faults out.new) }
    ensures shelf_fault { result ≡ 9 → Rose (S.faults shelf.old) (S.faults shelf.new) }
    ensures crew_fault { result ≡ 10 → Rose (C.faults crew.old) (C.faults crew.new) }
    // A sound shelf fails only for want of a file that the job reads.
    ensures lacks { S.IsSound shelf.old → result ≡ 9 → LacksFile (S.files shelf.old) (job_by (map string_bytes words.now)) }
    ensures input { (AsksInput (S.files shelf.old) (job_by (map string_bytes words.now)) → ⊥) → input.new ≡ input.old }
    ensures crew { (AsksCrew (S.files shelf.old) (I.left input.old) (job_by (map string_bytes words.now)) → ⊥) → crew.new ≡ crew.old }
{
    match job_of(alloc, words) {
        Ok(found) => do_job(rt, alloc, found, input, out, shelf, crew),
        Err(AllocError) => tell_stop(alloc, out, Stop::OutOfMemory),
    }
}
