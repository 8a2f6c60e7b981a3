// A whole draft, line by line.
ghost use Rattle.std.specs.Prelude.{◌≤◌, length, IfOk};
ghost use Rattle.flow_code.specs.Settle.{IsRunnable};
ghost use Rattle.flow_code.specs.Valid.{most_locks};
ghost use Rattle.snapshots.specs.Conditions as conditions;
ghost use Rattle.snapshot_reader.specs.Misfits.{Misfits};
ghost use Rattle.snapshot_reader.specs.Reading.{AreFew};

use crate::cells::misfit_cell;
use crate::machine::cells_of;
use crate::objects::misfit_object;
use crate::threads::{line_after, misfit_thread};
use flow_code::Code;
use snapshots::Draft;
use std::alloc::{AllocError, Global};
use sync_objects::Setup;

/// The first line of a draft that isn't as it must be, for so many entries of a log.
pub fn misfit_line(
    alloc: Global,
    code: &Code,
    setup: &Setup,
    entries: usize,
    draft: &Draft,
) -> Result<Option<u32>, AllocError>
    requires runnable { IsRunnable code.now }
    requires locks { length code.now.locks ≤ most_locks }
    requires threads { length draft.now.threads ≤ 16 }
    requires few { AreFew draft.now.threads }
    ensures { IfOk result (Misfits (conditions.judgements code.now setup.now entries draft.now) 1) }
{
    if draft.at as usize > entries {
        return Ok(Some(2));
    }
    let cells = cells_of(code, setup);
    if let Some(line) = misfit_cell(code, setup, cells, 4, draft.cells.as_slice()) {
        return Ok(Some(line));
    }
    let objects = draft.objects.as_slice();
    let objects_at = line_after(5, draft.cells.len());
    if let Some(line) = misfit_object(code, setup, cells, objects_at, objects) {
        return Ok(Some(line));
    }
    let threads_at = line_after(objects_at, objects.len());
    misfit_thread(alloc, code, setup, threads_at, draft.threads.as_slice())
}
