// Going on from a snapshot.
ghost use Rattle.std.specs.Prelude.{◌≡◌, ◌<◌, ◌≤◌, ℕ, Some, slice_get, length, map, IfOk};
ghost use Rattle.flow_code.specs.Settle.{IsRunnable};
ghost use Rattle.flow_code.specs.Ranges.{InRange};
ghost use Rattle.thread_interpreter.specs.Flows.{most_extra};
ghost use Rattle.thread_interpreter.specs.Parts.{thread_of};
ghost use Rattle.thread_interpreter.specs.declared.part.ThreadPart.{ThreadPart as PartOfThread};
ghost use Rattle.core_run.specs.Shown.{RunAll, running_thread};
ghost use Rattle.core_run.specs.Words.{cells_of, place_of as place_of_object};
ghost use Rattle.snapshots.specs.Snapshots.{IsListedObject, IsResumable, with_cells, with_objects, words_of};
ghost use Rattle.checkpoint.specs.Going.{few_walked};
ghost use Rattle.checkpoint.specs.Resuming.{ResumedIs};

use crate::going::{empty_reads, go_on};
use crate::outcome::{Resumed, Went};
use core_run::{Entry, Setup, Walk, have_ended, place_of, shown, start_words};
use flow_code::Code;
use rr_base::{Bytes, List};
use snapshots::Snapshot;
use std::alloc::{AllocError, Global};
use sync_objects::ObjId;
use thread_interpreter::{Flow, ThreadPart};

// The threads of these parts.
fn flows_of<'a>(
    alloc: Global,
    code: &'a Code,
    setup: &'a Setup,
    parts: &[ThreadPart],
) -> Result<Vec<Flow<'a>>, AllocError>
    requires runnable { IsRunnable code.now }
    requires threads { length parts.now ≡ setup.now.slots }
    requires range { (t : ℕ) (p : PartOfThread) → slice_get parts.now t ≡ Some p → InRange code.now setup.now most_extra t (thread_of p) }
    ensures all { IfOk result (λ it. RunAll code.now setup.now 0 it.items) }
    ensures threads { IfOk result (λ it. map running_thread it.items ≡ map thread_of parts.now) }
{
    let _slots = setup.slots();
    let mut flows = Vec::new(alloc);
    let mut thread: u8 = 0;
    let mut rest = parts;
    while let [part, more @ ..] = rest {
        let flow = Flow::resumed(alloc, code, setup, thread, part)?;
        flows.push(flow)?;
        thread += 1;
        rest = more;
    }
    Ok(flows)
}

// Gives these cells their words.
fn put_cells(words: &mut Vec<u64>, cells: &[(u32, u64)])
    requires { (k : ℕ) (c : ℕ × ℕ) → slice_get cells.now k ≡ Some c → c.0 < length words.old.items }
    ensures { words.new.items ≡ with_cells cells.now words.old.items }
{
    let mut rest = cells;
    while let [(cell, word), more @ ..] = rest {
        words[*cell as usize] = *word;
        rest = more;
    }
}

// Gives these objects their words.
fn put_objects(words: &mut Vec<u64>, cells: u32, objects: &[(ObjId, u32, u32)])
    requires { (k : ℕ) (o : ObjId × ℕ × ℕ) → slice_get objects.now k ≡ Some o → place_of_object cells o.0 < length words.old.items }
    ensures { words.new.items ≡ with_objects cells objects.now words.old.items }
{
    let mut rest = objects;
    while let [(object, number, state), more @ ..] = rest {
        words[place_of(cells, *object)] = (u64::from(*number) << 32) + u64::from(*state);
        rest = more;
    }
}

// The words of a snapshot.
fn words_in(
    alloc: Global,
    code: &Code,
    setup: &Setup,
    snapshot: &Snapshot,
) -> Result<Vec<u64>, AllocError>
    requires runnable { IsRunnable code.now }
    requires cells { (k : ℕ) (c : ℕ × ℕ) → slice_get snapshot.now.cells k ≡ Some c → c.0 < cells_of code.now setup.now }
    requires objects { (k : ℕ) (o : ObjId × ℕ × ℕ) → slice_get snapshot.now.objects k ≡ Some o → IsListedObject code.now setup.now o }
    ensures { IfOk result (λ it. it.items ≡ words_of code.now setup.now snapshot.now) }
{
    let slots = setup.slots();
    let cells = 2 * u32::from(slots) + code.globals.len() as u32 + u32::from(slots) * setup.cells();
    let start = start_words(alloc, code, setup)?;
    let mut words = Vec::new(alloc);
    for _k in 0..cells {
        words.push(0)?;
    }
    words.extend_from_slice(&start[cells as usize..])?;
    put_cells(&mut words, snapshot.cells.as_slice());
    put_objects(&mut words, cells, snapshot.objects.as_slice());
    Ok(words)
}

/// The walk of the rest of a log's entries, from the state that a snapshot keeps: what it comes to, with positions counted in
/// the whole log and no accesses, or the thread that came to a cell which the setup doesn't have.
pub fn resume(
    alloc: Global,
    code: &Code,
    setup: &Setup,
    snapshot: &Snapshot,
    entries: &List<Entry>,
) -> Result<Resumed, AllocError>
    requires runnable { IsRunnable code.now }
    requires resumable { IsResumable code.now setup.now (length entries.now) snapshot.now }
    requires few { length entries.now ≤ few_walked }
    ensures { IfOk result (ResumedIs code.now setup.now snapshot.now entries.now) }
{
    let mut flows = flows_of(alloc, code, setup, snapshot.threads.as_slice())?;
    let mut words = words_in(alloc, code, setup, snapshot)?;
    let mut reads = empty_reads(alloc, setup.slots())?;
    let mut out = Bytes::new(alloc);
    let last = entries.len() as u32;
    let went = go_on(
        code,
        setup,
        &mut flows,
        &mut words,
        &mut reads,
        &mut out,
        entries,
        snapshot.at,
        last,
    )?;
    match went {
        Went::On => {}
        Went::Refused { at } => return Ok(Resumed::Walked(Walk::Wrong { at })),
        Went::Outside { thread, .. } => return Ok(Resumed::BadCell { thread }),
    }
    if !have_ended(&flows) {
        return Ok(Resumed::Walked(Walk::Wrong { at: last }));
    }
    let walk = shown(alloc, &flows, &reads, out)?;
    Ok(Resumed::Walked(walk))
}
