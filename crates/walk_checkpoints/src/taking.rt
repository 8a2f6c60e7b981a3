// The file of the state after the first entries of a log.

ghost use Rattle.std.specs.Prelude.{◌≡◌, IfOk};
ghost use Rattle.walk_checkpoints.specs.Telling as spec;
ghost use Rattle.walk_checkpoints.specs.Telling.{TakesCheckpoint};

use crate::stored::read_numbers;
use checkpoint::{Taken, state_after};
use command_line::Answer;
use job_outcomes::{Outcome, Put};
use lock_sound::{Weakened, law_weakened_is_valid, law_weakened_runs};
use order_log::Log;
use rr_base::{Bytes, List};
use snapshot_reached::law_walk_meets_conditions;
use snapshots::{Snapshot, write_snapshot};
use std::alloc::{AllocError, Global};

// The file of a snapshot.
fn file_of<'a>(alloc: Global, snapshot: &Snapshot, name: &'a str) -> Result<Outcome<'a>, AllocError>
    ensures { IfOk result (λ o. o ≡ spec.checkpoint_put name.now snapshot.now) }
{
    let content = write_snapshot(alloc, snapshot)?;
    let mut puts = List::new(alloc);
    puts.push(Put::new(name, content))?;
    let answer = Answer::Done {
        out: Bytes::new(alloc),
    };
    Ok(Outcome { puts, answer })
}

/// The state after the first entries of a log on weakened code, as the file of this name. Neither what was printed nor a trap is
/// told. Where these entries have no walk the first wrong one is told, where there are fewer their number, and there is no file.
/// The file is read back by the same log on the same code.
pub fn taken_checkpoint<'a>(
    alloc: Global,
    weakened: &Weakened,
    log: &Log,
    count: u32,
    name: &'a str,
) -> Result<Outcome<'a>, AllocError>
    ensures { IfOk result (TakesCheckpoint weakened.now.weak log.now.setup log.now.entries count name.now) }
{
    law_weakened_runs();
    law_weakened_is_valid();
    law_walk_meets_conditions();
    let _slots = log.setup().slots();
    match state_after(alloc, weakened.code(), log.setup(), log.entries(), count)? {
        Taken::State(snapshot) => {
            read_numbers(&snapshot);
            file_of(alloc, &snapshot, name)
        }
        Taken::Wrong { at } => Ok(Outcome::answers(alloc, Answer::WrongEntry { at })),
    }
}
