// Reading a whole checkpoint.

ghost use Rattle.std.specs.Prelude.{◌≡◌, ◌≤◌, ◌<◌, List, ℕ, IsTrue, length};
ghost use Rattle.flow_code.specs.Settle.{IsRunnable};
ghost use Rattle.flow_code.specs.Valid.{most_locks};
ghost use Rattle.snapshots.specs.Conditions.{IsForm};
ghost use Rattle.snapshots.specs.Text.{draft_text};
ghost use Rattle.snapshots.specs.declared.draft.Draft.{Draft};
ghost use Rattle.snapshot_grammar.specs.Drafts.{clipped_draft};
ghost use Rattle.snapshot_reader.specs.Reading.{AreFew, AreShort, IsAnswer, UnlessMemory};

use crate::fault::SnapshotFault;
use crate::judge::misfit_line;
use crate::making::snapshot_of;
use flow_code::{Code, Function};
use snapshot_grammar::{DraftFault, read_draft};
use snapshots::{Draft, DraftThread, Snapshot};
use std::alloc::Global;
use sync_objects::Setup;

// Whether each instruction of these functions has a number of 32 bits, and the greatest is none's.
fn are_short(functions: &[Function]) -> bool
    ensures { IsTrue result → AreShort functions.now }
{
    functions
        .iter()
        .all(|function| function.instrs.len() < 4_294_967_295)
}

// Whether each of these threads has fewer stripes and regions than there are numbers of 32 bits.
fn are_few(threads: &[DraftThread]) -> bool
    ensures { IsTrue result → AreFew threads.now }
{
    threads.iter().all(|thread| {
        thread.stripes.len() < 4_294_967_295 && thread.regions.len() < 4_294_967_295
    })
}

// Whether the code and the draft are small enough for numbers of 32 bits.
fn is_small(code: &Code, draft: &Draft) -> bool
    ensures short { IsTrue result → AreShort code.now.functions }
    ensures few { IsTrue result → AreFew draft.now.threads }
{
    are_short(code.functions.as_slice()) && are_few(draft.threads.as_slice())
}

// The snapshot of a draft, if each line is as it must be.
fn judged(
    alloc: Global,
    code: &Code,
    setup: &Setup,
    entries: usize,
    draft: Draft,
) -> Result<Snapshot, SnapshotFault>
    requires runnable { IsRunnable code.now }
    requires locks { length code.now.locks ≤ most_locks }
    requires few { entries ≤ 16777312 }
    requires form { (d : Draft) × IsForm setup.now.slots d × (draft ≡ clipped_draft d) }
    ensures { (d : Draft) (bytes : List ℕ) → IsForm setup.now.slots d → bytes ≡ draft_text d → draft ≡ clipped_draft d → UnlessMemory result (IsAnswer code.now setup.now entries bytes result) }
{
    let _slots = setup.slots();
    if !is_small(code, &draft) {
        return Err(SnapshotFault::OutOfMemory);
    }
    match misfit_line(alloc, code, setup, entries, &draft)? {
        Some(line) => Err(SnapshotFault::Refused { number: 26, line }),
        None => Ok(snapshot_of(alloc, draft)?),
    }
}

/// The snapshot whose text the bytes are, for a code, a setup and so many entries of a log. A refusal tells the first line that
/// spoils them: with number 25 where no checkpoint's text begins with the lines up to it, or where it is missing or unfinished,
/// and with number 26 where they are a checkpoint's text, but that line isn't as it must be.
pub fn read_snapshot(
    alloc: Global,
    bytes: &[u8],
    code: &Code,
    setup: &Setup,
    entries: usize,
) -> Result<Snapshot, SnapshotFault>
    requires runnable { IsRunnable code.now }
    requires locks { length code.now.locks ≤ most_locks }
    requires few { entries ≤ 16777312 }
    ensures { UnlessMemory result (IsAnswer code.now setup.now entries bytes.now result) }
{
    match read_draft(alloc, bytes, setup.slots()) {
        Ok(draft) => judged(alloc, code, setup, entries, draft),
        Err(DraftFault::Syntax(line)) => Err(SnapshotFault::Refused { number: 25, line }),
        Err(DraftFault::OutOfMemory) => Err(SnapshotFault::OutOfMemory),
    }
}
