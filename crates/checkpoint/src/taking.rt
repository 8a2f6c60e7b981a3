// The state after the first entries of a log, as a snapshot keeps it.
ghost use Rattle.std.specs.Prelude.{◌≡◌, ◌<◌, ◌≤◌, ◌^◌, ℕ, Some, slice_get, length, map, IfOk, OnOk, false};
ghost use Rattle.flow_code.specs.Settle.{IsRunnable};
ghost use Rattle.flow_code.specs.Valid.{most_locks};
ghost use Rattle.thread_interpreter.specs.Flows.{Running};
ghost use Rattle.thread_interpreter.specs.Parts.{is_loaded, part_of as part_of_thread};
ghost use Rattle.snapshots.specs.Snapshots.{cells_from};
ghost use Rattle.checkpoint.specs.Going.{few_walked};
ghost use Rattle.checkpoint.specs.Resuming.{KeepsWords, TakenIs};

use crate::going::{empty_reads, go_on};
use crate::grouped::list_objects;
use crate::outcome::{Taken, Went};
use core_run::{Entry, Setup, start_flows, start_words};
use flow_code::Code;
use rr_base::{Bytes, List};
use snapshots::Snapshot;
use std::alloc::{AllocError, Global};
use thread_interpreter::{Flow, ThreadPart};

// The parts of all threads.
fn parts_of(alloc: Global, flows: &[Flow]) -> Result<List<ThreadPart>, AllocError>
    requires { (k : ℕ) (r : Running) → slice_get flows.now k ≡ Some r → is_loaded r.kept.thread.phase ≡ false }
    ensures parts { IfOk result (λ it. it ≡ map (λ (r : Running). part_of_thread r.kept.thread) flows.now) }
    ensures words { OnOk result ((k : ℕ) (r : Running) → slice_get flows.now k ≡ Some r → KeepsWords r.kept.thread) }
{
    let mut parts = List::new(alloc);
    let mut rest = flows;
    while let [flow, more @ ..] = rest {
        parts.push(flow.parts()?)?;
        rest = more;
    }
    Ok(parts)
}

// The cells whose word isn't 0.
fn cells_in(alloc: Global, words: &[u64]) -> Result<List<(u32, u64)>, AllocError>
    requires { length words.now < 2 ^ 32 }
    ensures { IfOk result (λ it. it ≡ cells_from 0 words.now) }
{
    let mut found = List::new(alloc);
    let mut cell: u32 = 0;
    let mut rest = words;
    while let [word, more @ ..] = rest {
        if *word != 0 {
            found.push((cell, *word))?;
        }
        cell += 1;
        rest = more;
    }
    Ok(found)
}

/// The state after the first `count` entries of a log. It is `Wrong` where these have no walk, at the first entry that isn't
/// allowed, and where there are fewer entries, at their number.
pub fn state_after(
    alloc: Global,
    code: &Code,
    setup: &Setup,
    entries: &List<Entry>,
    count: u32,
) -> Result<Taken, AllocError>
    requires runnable { IsRunnable code.now }
    requires locks { length code.now.locks ≤ most_locks }
    requires few { length entries.now ≤ few_walked }
    ensures { IfOk result (TakenIs code.now setup.now entries.now count) }
{
    let slots = setup.slots();
    let cells = 2 * usize::from(slots)
        + code.globals.len()
        + usize::from(slots) * setup.cells() as usize;
    let mut flows = start_flows(alloc, code, setup)?;
    let mut words = start_words(alloc, code, setup)?;
    let mut reads = empty_reads(alloc, slots)?;
    let mut out = Bytes::new(alloc);
    let taken = count.min(entries.len() as u32);
    let went = go_on(
        code, setup, &mut flows, &mut words, &mut reads, &mut out, entries, 0, taken,
    )?;
    match went {
        Went::On => {}
        Went::Refused { at } => return Ok(Taken::Wrong { at }),
        Went::Outside { at, .. } => return Ok(Taken::Wrong { at }),
    }
    if taken < count {
        return Ok(Taken::Wrong { at: taken });
    }
    Ok(Taken::State(Snapshot {
        at: count,
        cells: cells_in(alloc, &words[..cells])?,
        objects: list_objects(alloc, code, setup, &words)?,
        threads: parts_of(alloc, &flows)?,
    }))
}
