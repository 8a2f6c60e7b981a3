// What orders two accesses of a log's run.

ghost use Rattle.std.specs.Prelude.{◌≡◌, MatchResult};
ghost use Rattle.job_laws.specs.Chainings as spec;
ghost use Rattle.job_laws.specs.Chainings.{OrdersLog};
ghost use Rattle.job_laws.specs.Readings.{ReadsLog};
ghost use Rattle.job_outcomes.specs.Faults.{ShelfStops};
ghost use Rattle.job_laws.specs.Wants.{LacksEither};
ghost use Rattle.job_outcomes.specs.Steps.{Gives, Lacks};

use crate::logs::{followed, let_both_go};
use chain_report::Point;
use command_line::Event;
use job_outcomes::{Keeper, Outcome, Stop};
use job_runs::or_stop;
use std::alloc::Global;
use walk_chains::told_chain;

// The point of a log at which an event is made.
fn point_of(event: Event) -> Point
    ensures { result ≡ spec.point_of event }
{
    Point {
        thread: event.thread,
        count: event.count,
    }
}

/// The outcome of a source and a log by their names. Nothing is put.
pub(crate) fn chain_log<'a, S: Keeper>(
    alloc: Global,
    source: &str,
    log: &str,
    one: Event,
    other: Event,
    shelf: &mut S,
) -> Result<Outcome<'a>, Stop>
    ensures outcome { Gives (ReadsLog (S.files shelf.old) source.now log.now (λ view. OrdersLog view (spec.point_of one) (spec.point_of other))) result }
    ensures files { S.files shelf.new ≡ S.files shelf.old }
    ensures faults { MatchResult result (λ _. S.faults shelf.new ≡ S.faults shelf.old) (λ stop. ShelfStops stop (S.faults shelf.old) (S.faults shelf.new)) }
    ensures sound { S.IsSound shelf.old → S.IsSound shelf.new }
    ensures lacks { S.IsSound shelf.old → result ≡ Err Stop.ShelfFailed → LacksEither (S.files shelf.old) source.now (Lacks (S.files shelf.old) log.now) }
{
    let found = followed(alloc, source, log, shelf)?;
    let (weakened, log) = found;
    let told = or_stop(told_chain(alloc, &weakened, &log, point_of(one), point_of(other)));
    let_both_go(weakened, log);
    told
}
