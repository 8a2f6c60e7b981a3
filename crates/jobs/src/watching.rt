// The first access of a log's run that meets a formula.

ghost use Rattle.std.specs.Prelude.{◌≡◌, IfOk, MatchResult};
ghost use Rattle.job_laws.specs.Readings.{ReadsLog};
ghost use Rattle.job_outcomes.specs.Faults.{ShelfStops};
ghost use Rattle.job_laws.specs.Wants.{LacksEither};
ghost use Rattle.job_outcomes.specs.Steps.{Gives, Lacks};
ghost use Rattle.job_laws.specs.Watchings.{TellsLog};
ghost use Rattle.walk_hits.specs.Telling.{TellsHit};

use crate::logs::{followed, let_both_go};
use job_outcomes::{Keeper, Outcome, Stop};
use job_runs::or_stop;
use lock_sound::{Weakened, law_weakened_runs};
use order_log::Log;
use std::alloc::{AllocError, Global};
use thread_interpreter::Formula;
use walk_hits::told_hit;

// What is told of the walk of the log on the weakened code.
fn told<'a>(
    alloc: Global,
    weakened: &Weakened,
    log: &Log,
    formula: Formula,
) -> Result<Outcome<'a>, AllocError>
    ensures { IfOk result (TellsHit weakened.now.weak log.now.setup log.now.entries formula) }
{
    law_weakened_runs();
    told_hit(alloc, weakened.code(), log, formula)
}

/// The outcome of a source and a log by their names. Nothing is put.
pub(crate) fn watch_log<'a, S: Keeper>(
    alloc: Global,
    source: &str,
    log: &str,
    formula: Formula,
    shelf: &mut S,
) -> Result<Outcome<'a>, Stop>
    ensures outcome { Gives (ReadsLog (S.files shelf.old) source.now log.now (λ view. TellsLog view formula)) result }
    ensures files { S.files shelf.new ≡ S.files shelf.old }
    ensures faults { MatchResult result (λ _. S.faults shelf.new ≡ S.faults shelf.old) (λ stop. ShelfStops stop (S.faults shelf.old) (S.faults shelf.new)) }
    ensures sound { S.IsSound shelf.old → S.IsSound shelf.new }
    ensures lacks { S.IsSound shelf.old → result ≡ Err Stop.ShelfFailed → LacksEither (S.files shelf.old) source.now (Lacks (S.files shelf.old) log.now) }
{
    let found = followed(alloc, source, log, shelf)?;
    let (weakened, log) = found;
    let told = or_stop(told(alloc, &weakened, &log, formula));
    let_both_go(weakened, log);
    told
}
