// The walk of the rest of a log from the state that a file holds.

ghost use Rattle.std.specs.Prelude.{◌≡◌, IfOk, length};
ghost use Rattle.snapshots.specs.Conditions.{MeetsConditions};
ghost use Rattle.walk_checkpoints.specs.Telling as spec;
ghost use Rattle.walk_checkpoints.specs.Telling.{GoesOn, WalksRest};

use checkpoint::{Resumed, resume};
use command_line::Answer;
use job_outcomes::Outcome;
use lock_sound::{Weakened, law_weakened_is_valid, law_weakened_runs};
use order_log::Log;
use snapshot_reader::{SnapshotFault, read_snapshot};
use snapshots::{Snapshot, law_resumable};
use std::alloc::{AllocError, Global};
use walk_answers::answer_of;

// What is told of a walk of the rest.
fn rest_answer(rest: Resumed) -> Answer
    ensures { result ≡ spec.rest_answer rest }
{
    match rest {
        Resumed::Walked(walk) => answer_of(walk),
        Resumed::BadCell { thread } => Answer::CheckpointRefused {
            number: 27,
            place: u32::from(thread),
        },
    }
}

// What is told of the walk of the rest of a log from a snapshot.
fn walked_rest<'a>(
    alloc: Global,
    weakened: &Weakened,
    log: &Log,
    snapshot: &Snapshot,
) -> Result<Outcome<'a>, AllocError>
    requires { MeetsConditions weakened.now.weak log.now.setup (length log.now.entries) snapshot.now }
    ensures { IfOk result (WalksRest weakened.now.weak log.now.setup log.now.entries snapshot.now) }
{
    let _slots = log.setup().slots();
    law_weakened_runs();
    law_resumable();
    let rest = resume(alloc, weakened.code(), log.setup(), snapshot, log.entries())?;
    Ok(Outcome::answers(alloc, rest_answer(rest)))
}

/// What is told of the walk of the rest of a log on weakened code, from the state that these bytes hold: what is printed from there
/// on, and how it ends. Bytes that hold no state of this code and this log are refused, and so is a state in which a thread comes
/// to a cell that there isn't. No file is put.
pub fn told_rest<'a>(
    alloc: Global,
    weakened: &Weakened,
    log: &Log,
    bytes: &[u8],
) -> Result<Outcome<'a>, AllocError>
    ensures { IfOk result (GoesOn weakened.now.weak log.now.setup log.now.entries bytes.now) }
{
    law_weakened_runs();
    law_weakened_is_valid();
    let entries = log.entries().len();
    match read_snapshot(alloc, bytes, weakened.code(), log.setup(), entries) {
        Ok(snapshot) => walked_rest(alloc, weakened, log, &snapshot),
        Err(SnapshotFault::Refused { number, line }) => {
            let place = line;
            Ok(Outcome::answers(alloc, Answer::CheckpointRefused { number, place }))
        }
        Err(SnapshotFault::OutOfMemory) => Err(AllocError),
    }
}
