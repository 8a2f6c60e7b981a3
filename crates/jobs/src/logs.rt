// From a source, a log and a checkpoint by their names to the code that the log's entries are walked on.

ghost use Rattle.std.specs.Prelude.{◌≡◌, ◌≤◌, ◌^◌, length, IfErr, IfOk, MatchResult};
ghost use Rattle.job_laws.specs.Readings.{AreRead, IsFollowed, IsFollowedFrom};
ghost use Rattle.job_laws.specs.Sources.{CompilesFor};
ghost use Rattle.job_laws.specs.Wants.{LacksCheckpoint, LacksEither};
ghost use Rattle.job_outcomes.specs.Faults.{IsPure, ShelfStops};
ghost use Rattle.job_outcomes.specs.Steps.{Finds, Lacks};

use crate::sources::{SOURCE_BYTES, compiled, let_go};
use command_line::Part;
use compile_correct::law_text_erased_walk;
use happens_before::law_ordered_walk;
use job_outcomes::{Keeper, Stop, file};
use job_runs::log_in;
use lock_sound::Weakened;
use order_log::Log;
use rr_base::Bytes;
use std::alloc::Global;

/// The most bytes of a log.
const LOG_BYTES: u32 = 536_870_912;

/// The most bytes of a checkpoint.
const CHECKPOINT_BYTES: u32 = 536_870_912;

// The text of a source, and a log, by their names.
fn source_and_log<S: Keeper>(
    alloc: Global,
    source: &str,
    log: &str,
    shelf: &mut S,
) -> Result<(Bytes, Log), Stop>
    ensures found { Finds (AreRead (S.files shelf.old) source.now log.now) result }
    ensures short { IfOk result (λ read. length read.0 ≤ 2 ^ 20) }
    ensures files { S.files shelf.new ≡ S.files shelf.old }
    ensures faults { MatchResult result (λ _. S.faults shelf.new ≡ S.faults shelf.old) (λ stop. ShelfStops stop (S.faults shelf.old) (S.faults shelf.new)) }
    ensures sound { S.IsSound shelf.old → S.IsSound shelf.new }
    ensures lacks { S.IsSound shelf.old → result ≡ Err Stop.ShelfFailed → LacksEither (S.files shelf.old) source.now (Lacks (S.files shelf.old) log.now) }
{
    let text = file(alloc, shelf, source, SOURCE_BYTES, Part::Source)?;
    let bytes = file(alloc, shelf, log, LOG_BYTES, Part::Log)?;
    let log = log_in(alloc, bytes.as_slice())?;
    Ok((text, log))
}

// The code of a source for a log's profile.
fn code_for(alloc: Global, source: &Bytes, log: &Log) -> Result<Weakened, Stop>
    requires { length source.now ≤ 2 ^ 20 }
    ensures code { CompilesFor source.now log.now result }
    ensures pure { IfErr result IsPure }
{
    let _slots = log.setup().slots();
    law_text_erased_walk();
    law_ordered_walk();
    compiled(alloc, source.as_slice(), log.profile())
}

/// Lets a code and its log go.
pub(crate) fn let_both_go(weakened: Weakened, _log: Log) {
    let_go(weakened);
}

/// The code of a source for a log's profile, and that log, by their names.
pub(crate) fn followed<S: Keeper>(
    alloc: Global,
    source: &str,
    log: &str,
    shelf: &mut S,
) -> Result<(Weakened, Log), Stop>
    ensures found { Finds (IsFollowed (S.files shelf.old) source.now log.now) result }
    ensures files { S.files shelf.new ≡ S.files shelf.old }
    ensures faults { MatchResult result (λ _. S.faults shelf.new ≡ S.faults shelf.old) (λ stop. ShelfStops stop (S.faults shelf.old) (S.faults shelf.new)) }
    ensures sound { S.IsSound shelf.old → S.IsSound shelf.new }
    ensures lacks { S.IsSound shelf.old → result ≡ Err Stop.ShelfFailed → LacksEither (S.files shelf.old) source.now (Lacks (S.files shelf.old) log.now) }
{
    let read = source_and_log(alloc, source, log, shelf)?;
    let (text, log) = read;
    let weakened = code_for(alloc, &text, &log)?;
    Ok((weakened, log))
}

/// The code of a source for a log's profile, that log, and the bytes of a checkpoint, by their names. The checkpoint is got before the
/// source is compiled.
pub(crate) fn followed_from<S: Keeper>(
    alloc: Global,
    source: &str,
    log: &str,
    checkpoint: &str,
    shelf: &mut S,
) -> Result<(Weakened, Log, Bytes), Stop>
    ensures found { Finds (IsFollowedFrom (S.files shelf.old) source.now log.now checkpoint.now) result }
    ensures files { S.files shelf.new ≡ S.files shelf.old }
    ensures faults { MatchResult result (λ _. S.faults shelf.new ≡ S.faults shelf.old) (λ stop. ShelfStops stop (S.faults shelf.old) (S.faults shelf.new)) }
    ensures sound { S.IsSound shelf.old → S.IsSound shelf.new }
    ensures lacks { S.IsSound shelf.old → result ≡ Err Stop.ShelfFailed → LacksEither (S.files shelf.old) source.now (LacksCheckpoint (S.files shelf.old) log.now checkpoint.now) }
{
    let read = source_and_log(alloc, source, log, shelf)?;
    let (text, log) = read;
    let held = file(alloc, shelf, checkpoint, CHECKPOINT_BYTES, Part::Checkpoint)?;
    let weakened = code_for(alloc, &text, &log)?;
    Ok((weakened, log, held))
}
