// The lines of threads.
ghost use Rattle.std.specs.Prelude.{◌≡◌, ◌<◌, ◌≤◌, ◌+◌, ◌++◌, None, length, IfOk};
ghost use Rattle.flow_code.specs.Settle.{IsRunnable};
ghost use Rattle.flow_code.specs.Valid.{most_locks};
ghost use Rattle.order_log.specs.Reading.{shown};
ghost use Rattle.snapshots.specs.Conditions as conditions;
ghost use Rattle.snapshot_reader.specs.Misfits.{Misfits};
ghost use Rattle.snapshot_reader.specs.Reading.{AreFew};

use crate::frames::misfit_frame;
use crate::machine::{arena_start, function_at, is_main, may_start};
use crate::places::{listed, nestings};
use crate::regions::misfit_region;
use crate::stripes::misfit_stripe;
use flow_code::Code;
use snapshots::{DraftThread, Head, HeadPhase};
use std::alloc::{AllocError, Global};
use sync_objects::Setup;

fn begins(code: &Code, thread: u8, function: u32) -> bool
    ensures { result ≡ conditions.begins code.now thread function }
{
    if thread == 0 {
        is_main(code, function)
    } else {
        may_start(function_at(code, function))
    }
}

fn is_alone(head: &Head) -> bool
    ensures { result ≡ conditions.is_alone head.now }
{
    head.frames == 0 && head.stripes == 0 && head.regions == 0
}

fn phase_fits(code: &Code, thread: u8, head: &Head) -> bool
    ensures { result ≡ conditions.phase_fits code.now thread head.now head.now.phase }
{
    match head.phase {
        HeadPhase::Fresh => 1 <= thread && head.frames == 0,
        HeadPhase::Begun(function) => begins(code, thread, function) && head.frames == 0,
        HeadPhase::Running => 1 <= head.frames && head.frames <= 1000,
        HeadPhase::Ended => is_alone(head),
        HeadPhase::Trapped { kind, line } => {
            1 <= kind && kind <= 18 && line < 4_294_967_296 && is_alone(head)
        }
    }
}

fn head_fits(code: &Code, setup: &Setup, thread: u8, head: &Head) -> bool
    requires runnable { IsRunnable code.now }
    requires thread { thread < 16 }
    ensures { result ≡ conditions.head_fits code.now setup.now thread head.now }
{
    let arena = arena_start(code, setup, thread);
    head.number == u32::from(thread)
        && head.count <= setup.limit() + 2
        && arena <= head.arena
        && head.arena <= arena + setup.cells()
        && head.entries <= 1_048_576
        && head.revokes <= 16_384
        && head.printed <= 16_777_216
        && phase_fits(code, thread, head)
}

/// The line that stands so many after one.
pub fn line_after(line: u32, count: usize) -> u32
    requires { line ≤ 4294967295 }
    ensures { result ≡ shown (line + count) }
{
    line.saturating_add(count.min(4_294_967_295) as u32)
}

// The line of the first stripe or region of a thread that isn't as it must be.
fn misfit_lock(
    alloc: Global,
    code: &Code,
    setup: &Setup,
    first: u32,
    thread: &DraftThread,
) -> Result<Option<u32>, AllocError>
    requires locks { length code.now.locks ≤ most_locks }
    requires few { length thread.now.regions < 4294967295 }
    ensures { IfOk result (Misfits (conditions.stripes_judged code.now setup.now thread.now.regions None thread.now.stripes ++ conditions.regions_judged code.now thread.now.frames thread.now.stripes None thread.now.regions) first) }
{
    let locks = code.locks.len();
    let stripes = thread.stripes.as_slice();
    let regions = thread.regions.as_slice();
    let counts = nestings(alloc, locks, regions)?;
    if let Some(line) = misfit_stripe(code, counts.as_slice(), first, stripes) {
        return Ok(Some(line));
    }
    let places = listed(alloc, locks, stripes)?;
    let at = line_after(first, stripes.len());
    misfit_region(
        alloc,
        code,
        thread.frames.as_slice(),
        places.as_slice(),
        at,
        regions,
    )
}

// The line of the first line of a thread that isn't as it must be.
fn misfit_in(
    alloc: Global,
    code: &Code,
    setup: &Setup,
    number: u8,
    first: u32,
    thread: &DraftThread,
) -> Result<Option<u32>, AllocError>
    requires runnable { IsRunnable code.now }
    requires locks { length code.now.locks ≤ most_locks }
    requires number { number < 16 }
    requires few { length thread.now.regions < 4294967295 }
    ensures { IfOk result (Misfits (conditions.thread_judged code.now setup.now number thread.now) first) }
{
    if !head_fits(code, setup, number, &thread.head) {
        return Ok(Some(first));
    }
    let frames_at = line_after(first, 1);
    let frames = thread.frames.as_slice();
    if let Some(line) = misfit_frame(code, setup, frames_at, frames) {
        return Ok(Some(line));
    }
    let stripes_at = line_after(frames_at, frames.len());
    misfit_lock(alloc, code, setup, stripes_at, thread)
}

// The line after those of a thread.
fn line_after_thread(line: u32, thread: &DraftThread) -> u32
    requires { line ≤ 4294967295 }
    ensures { result ≡ shown (line + (1 + (length thread.now.frames + (length thread.now.stripes + length thread.now.regions)))) }
{
    let frames_at = line_after(line, 1);
    let stripes_at = line_after(frames_at, thread.frames.len());
    let regions_at = line_after(stripes_at, thread.stripes.len());
    line_after(regions_at, thread.regions.len())
}

/// The first line of threads that isn't as it must be.
pub fn misfit_thread(
    alloc: Global,
    code: &Code,
    setup: &Setup,
    first: u32,
    threads: &[DraftThread],
) -> Result<Option<u32>, AllocError>
    requires runnable { IsRunnable code.now }
    requires locks { length code.now.locks ≤ most_locks }
    requires threads { length threads.now ≤ 16 }
    requires few { AreFew threads.now }
    ensures { IfOk result (Misfits (conditions.threads_judged code.now setup.now 0 threads.now) first) }
{
    let mut line = first;
    let mut number = 0;
    let mut rest = threads;
    while let [thread, more @ ..] = rest {
        if let Some(misfit) = misfit_in(alloc, code, setup, number, line, thread)? {
            return Ok(Some(misfit));
        }
        number += 1;
        line = line_after_thread(line, thread);
        rest = more;
    }
    Ok(None)
}
