// The profile of a log.

ghost use Rattle.std.specs.Prelude.{◌≡◌, IfOk, MatchResult};
ghost use Rattle.job_laws.specs.Profilings.{ShowsLog};
ghost use Rattle.job_laws.specs.Readings.{ReadsLog};
ghost use Rattle.job_outcomes.specs.Faults.{ShelfStops};
ghost use Rattle.job_laws.specs.Wants.{LacksEither};
ghost use Rattle.job_outcomes.specs.Steps.{Gives, Lacks};
ghost use Rattle.source_names.specs.Spelled.{HaveTexts};
ghost use Rattle.walk_profiles.specs.Profiling.{ShowsProfile};

use crate::logs::{followed, let_both_go};
use job_outcomes::{Keeper, Outcome, Stop};
use job_runs::or_stop;
use lock_sound::{Weakened, law_weakened_runs};
use order_log::Log;
use source_names::law_names_are_texts;
use std::alloc::{AllocError, Global};
use walk_profiles::shown_profile;

// What the walk of the log shows on the weakened code.
fn shown<'a>(
    alloc: Global,
    weakened: &Weakened,
    log: &Log,
    name: &'a str,
) -> Result<Outcome<'a>, AllocError>
    requires { HaveTexts weakened.now.weak }
    ensures { IfOk result (ShowsProfile weakened.now.weak log.now.setup log.now.entries name.now) }
{
    law_weakened_runs();
    shown_profile(alloc, weakened.code(), log, name)
}

/// The outcome of a source and a log by their names, where the profile is put under a third one.
pub(crate) fn profile_log<'a, S: Keeper>(
    alloc: Global,
    source: &str,
    log: &str,
    name: &'a str,
    shelf: &mut S,
) -> Result<Outcome<'a>, Stop>
    ensures outcome { Gives (ReadsLog (S.files shelf.old) source.now log.now (λ view. ShowsLog view name.now)) result }
    ensures files { S.files shelf.new ≡ S.files shelf.old }
    ensures faults { MatchResult result (λ _. S.faults shelf.new ≡ S.faults shelf.old) (λ stop. ShelfStops stop (S.faults shelf.old) (S.faults shelf.new)) }
    ensures sound { S.IsSound shelf.old → S.IsSound shelf.new }
    ensures lacks { S.IsSound shelf.old → result ≡ Err Stop.ShelfFailed → LacksEither (S.files shelf.old) source.now (Lacks (S.files shelf.old) log.now) }
{
    let found = followed(alloc, source, log, shelf)?;
    let (weakened, log) = found;
    law_names_are_texts();
    let told = or_stop(shown(alloc, &weakened, &log, name));
    let_both_go(weakened, log);
    told
}
