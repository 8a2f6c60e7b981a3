// A recording is replayed, and both are told.

ghost use Rattle.std.specs.Prelude.{◌≡◌, ◌≢◌, IfOk, MatchResult};
ghost use Rattle.job_runs.specs.Retold as spec;
ghost use Rattle.job_runs.specs.Retold.{IsReplayed};
ghost use Rattle.job_runs.specs.Works.{work_of};
ghost use Rattle.job_outcomes.specs.Endings.{ComesTo};
ghost use Rattle.job_outcomes.specs.Faults.{CrewShelfStops};

use crate::recording::Recording;
use crate::replaying::told_walk;
use command_line::{Answer, summary_text};
use crew::Crew;
use job_outcomes::{Keeper, Outcome, Stop, put_all};
use lock_sound::Weakened;
use rr_base::Bytes;
use std::alloc::{AllocError, Global};
use std::sync::Wait;
use std::thread::Threads;
use std::time::Clock;

// What was printed.
fn printed(answer: &Answer) -> &[u8]
    ensures { result.now ≡ spec.printed answer.now }
{
    match answer {
        Answer::Done { out } | Answer::Trapped { out, .. } => out.as_slice(),
        _ => &[],
    }
}

// The same answer, where these bytes were printed.
fn with_printed(out: Bytes, answer: Answer) -> Answer
    ensures { result ≡ spec.with_printed out answer }
{
    match answer {
        Answer::Done { .. } => Answer::Done { out },
        Answer::Trapped {
            kind,
            thread,
            line,
            ..
        } => Answer::Trapped {
            out,
            kind,
            thread,
            line,
        },
        other => other,
    }
}

// What is told of a source with so many functions and bytes, its recording and its replay.
fn summary(
    alloc: Global,
    count: u32,
    bytes: u32,
    recorded: Answer,
    replayed: &Answer,
) -> Result<Answer, AllocError>
    ensures { IfOk result (λ answer. answer ≡ spec.summary_told count bytes recorded replayed.now) }
{
    let text = summary_text(alloc, count, bytes, printed(&recorded), printed(replayed))?;
    Ok(with_printed(text, recorded))
}

/// The log of a recording is put and replayed, and both are told.
pub fn replayed_log<'a, R: Threads + Wait + Clock + Sync, S: Keeper, C: Crew>(
    rt: &R,
    alloc: Global,
    weakened: &Weakened,
    count: u32,
    bytes: u32,
    recording: Recording<'_>,
    shelf: &mut S,
    crew: &mut C,
) -> Result<Outcome<'a>, Stop>
    ensures outcome { ComesTo (IsReplayed (work_of C.Crew crew.old) (work_of C.Crew crew.new) count bytes weakened.now recording.entry.log recording.entry.outcome) (λ _ puts. puts ≡ recording.entry.outcome.puts) (S.files shelf.old) (S.files shelf.new) result }
    ensures faults { MatchResult result (λ _. (S.faults shelf.new ≡ S.faults shelf.old) × (C.faults crew.new ≡ C.faults crew.old)) (λ stop. CrewShelfStops stop (S.faults shelf.old) (S.faults shelf.new) (C.faults crew.old) (C.faults crew.new)) }
    ensures failed { result ≡ Err Stop.CrewFailed → C.jobs_run crew.new ≡ C.jobs_run crew.old }
    ensures sound { S.IsSound shelf.old → S.IsSound shelf.new }
    ensures kept { S.IsSound shelf.old → result ≢ Err Stop.ShelfFailed }
{
    let Recording { log, outcome } = recording;
    let Outcome { puts, answer } = outcome;
    put_all(alloc, shelf, puts.as_slice())?;
    let replayed = told_walk(rt, alloc, weakened, &log, None, crew)?;
    let answer = summary(alloc, count, bytes, answer, &replayed.answer)?;
    Ok(Outcome::answers(alloc, answer))
}
