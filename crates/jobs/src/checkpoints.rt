// Checkpoints of a log's run.

ghost use Rattle.std.specs.Prelude.{◌≡◌, MatchResult};
ghost use Rattle.job_laws.specs.Checkpoints.{GoesOnFrom, KeepsState};
ghost use Rattle.job_laws.specs.Readings.{ReadsCheckpoint, ReadsLog};
ghost use Rattle.job_laws.specs.Wants.{LacksCheckpoint, LacksEither};
ghost use Rattle.job_outcomes.specs.Faults.{ShelfStops};
ghost use Rattle.job_outcomes.specs.Steps.{Gives, Lacks};

use crate::logs::{followed, followed_from, let_both_go};
use job_outcomes::{Keeper, Outcome, Stop};
use job_runs::or_stop;
use std::alloc::Global;
use walk_checkpoints::{taken_checkpoint, told_rest};

/// The outcome of a source and a log by their names, where the state after so many of the log's entries is put under a third one.
pub(crate) fn keep_state<'a, S: Keeper>(
    alloc: Global,
    source: &str,
    log: &str,
    count: u32,
    name: &'a str,
    shelf: &mut S,
) -> Result<Outcome<'a>, Stop>
    ensures outcome { Gives (ReadsLog (S.files shelf.old) source.now log.now (λ view. KeepsState view count name.now)) result }
    ensures files { S.files shelf.new ≡ S.files shelf.old }
    ensures faults { MatchResult result (λ _. S.faults shelf.new ≡ S.faults shelf.old) (λ stop. ShelfStops stop (S.faults shelf.old) (S.faults shelf.new)) }
    ensures sound { S.IsSound shelf.old → S.IsSound shelf.new }
    ensures lacks { S.IsSound shelf.old → result ≡ Err Stop.ShelfFailed → LacksEither (S.files shelf.old) source.now (Lacks (S.files shelf.old) log.now) }
{
    let found = followed(alloc, source, log, shelf)?;
    let (weakened, log) = found;
    let told = or_stop(taken_checkpoint(alloc, &weakened, &log, count, name));
    let_both_go(weakened, log);
    told
}

/// The outcome of a source, a log and a checkpoint by their names. Nothing is put.
pub(crate) fn go_on_from<'a, S: Keeper>(
    alloc: Global,
    source: &str,
    log: &str,
    checkpoint: &str,
    shelf: &mut S,
) -> Result<Outcome<'a>, Stop>
    ensures outcome { Gives (ReadsCheckpoint (S.files shelf.old) source.now log.now checkpoint.now GoesOnFrom) result }
    ensures files { S.files shelf.new ≡ S.files shelf.old }
    ensures faults { MatchResult result (λ _. S.faults shelf.new ≡ S.faults shelf.old) (λ stop. ShelfStops stop (S.faults shelf.old) (S.faults shelf.new)) }
    ensures sound { S.IsSound shelf.old → S.IsSound shelf.new }
    ensures lacks { S.IsSound shelf.old → result ≡ Err Stop.ShelfFailed → LacksEither (S.files shelf.old) source.now (LacksCheckpoint (S.files shelf.old) log.now checkpoint.now) }
{
    let found = followed_from(alloc, source, log, checkpoint, shelf)?;
    let (weakened, log, held) = found;
    let told = or_stop(told_rest(alloc, &weakened, &log, held.as_slice()));
    let_both_go(weakened, log);
    told
}
