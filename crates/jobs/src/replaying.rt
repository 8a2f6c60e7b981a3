// A run of a source by a log.

ghost use Rattle.std.specs.Prelude.{◌≡◌, MatchResult, option_map};
ghost use Rattle.job_runs.specs.Works.{IsIdle, work_of};
ghost use Rattle.job_laws.specs.Asks.{HasLog, HasSource};
ghost use Rattle.job_laws.specs.Readings.{ReadsLog};
ghost use Rattle.job_laws.specs.Replays.{Replays};
ghost use Rattle.job_outcomes.specs.Faults.{CrewShelfStops};
ghost use Rattle.job_laws.specs.Wants.{LacksEither};
ghost use Rattle.job_outcomes.specs.Steps.{Gives, Lacks};

use crate::logs::{followed, let_both_go};
use crew::Crew;
use job_outcomes::{Keeper, Outcome, Stop};
use job_runs::told_walk;
use std::alloc::Global;
use std::sync::Wait;
use std::thread::Threads;
use std::time::Clock;

/// The outcome of a source and a log by their names.
pub(crate) fn replay<'a, R: Threads + Wait + Clock + Sync, S: Keeper, C: Crew>(
    rt: &R,
    alloc: Global,
    source: &str,
    log: &str,
    reads: Option<&'a str>,
    shelf: &mut S,
    crew: &mut C,
) -> Result<Outcome<'a>, Stop>
    ensures outcome { let name = option_map (λ n. n.now) reads.entry in Gives (ReadsLog (S.files shelf.old) source.now log.now (λ view. Replays (work_of C.Crew crew.old) (work_of C.Crew crew.new) view name)) result }
    ensures idle { IsIdle result (work_of C.Crew crew.old) (work_of C.Crew crew.new) }
    ensures files { S.files shelf.new ≡ S.files shelf.old }
    ensures faults { MatchResult result (λ _. (S.faults shelf.new ≡ S.faults shelf.old) × (C.faults crew.new ≡ C.faults crew.old)) (λ stop. CrewShelfStops stop (S.faults shelf.old) (S.faults shelf.new) (C.faults crew.old) (C.faults crew.new)) }
    ensures sound { S.IsSound shelf.old → S.IsSound shelf.new }
    ensures lacks { S.IsSound shelf.old → result ≡ Err Stop.ShelfFailed → LacksEither (S.files shelf.old) source.now (Lacks (S.files shelf.old) log.now) }
    // Threads run only once the source and the log are accepted.
    ensures runs { result ≡ Err Stop.CrewFailed → HasSource (S.files shelf.old) source.now × HasLog (S.files shelf.old) log.now }
    ensures crew { (HasSource (S.files shelf.old) source.now × HasLog (S.files shelf.old) log.now → ⊥) → crew.new ≡ crew.old }
{
    let found = followed(alloc, source, log, shelf)?;
    let (weakened, log) = found;
    let told = told_walk(rt, alloc, &weakened, &log, reads, crew);
    let_both_go(weakened, log);
    told
}
