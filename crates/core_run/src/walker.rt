// The walk of a list of entries.
ghost use Rattle.std.specs.Prelude.{◌≡◌, ◌<◌, ◌≤◌, ◌^◌, ◌+◌, ◌-◌, length, IfOk, ℕ, slice_get};
ghost use Rattle.sync_objects.specs.Setup.{IsWithinLimits};
ghost use Rattle.flow_code.specs.Settle.{IsRunnable};
ghost use Rattle.core_run.specs.Machine.{Told};
ghost use Rattle.core_run.specs.Words.{cells_of};
ghost use Rattle.core_run.specs.Parts.{KeepsObjects, AreUsable};
ghost use Rattle.core_run.specs.Shown.{RunAll, IsShown, OwnStep, OwnSteps, EntryStep, PartStep, PartEndIs};
ghost use Rattle.thread_interpreter.specs.Flows.{Running};
ghost use Rattle.std.specs.Prelude.{Some};
ghost use Rattle.run_theory.specs.Steps.{State};
ghost use Rattle.std.specs.Prelude.{List as ListOf};
ghost use Rattle.thread_interpreter.specs.declared.access.Access.{Access as AccessOf};
ghost use Rattle.thread_interpreter.specs.declared.access.Formula.{Formula as FormulaOf};

use crate::making::make_entry;
use crate::outcome::PartEnd;
use crate::parts::{Made, Own, own_step};
use crate::reads::keep;
use flow_code::Code;
use rr_base::{Bytes, List};
use std::alloc::AllocError;
use sync_objects::{Entry, Setup};
use thread_interpreter::{Access, Flow, Formula};

// One own step of a thread that makes no entry, if its next is one.
fn own_step_in(
    code: &Code,
    setup: &Setup,
    flows: &mut Vec<Flow>,
    words: &mut Vec<u64>,
    reads: &mut Vec<List<Access>>,
    cells: u32,
    thread: u8,
    formula: &Formula,
) -> Result<PartEnd, AllocError>
    requires all { RunAll code.now setup.now 0 flows.old.items }
    requires thread { thread < length flows.old.items }
    requires reads { length reads.old.items ≡ length flows.old.items }
    requires cells { cells ≡ cells_of code.now setup.now }
    requires words { cells ≤ length words.old.items }
    ensures all { RunAll code.now setup.now 0 flows.new.items }
    ensures flows { length flows.new.items ≡ length flows.old.items }
    ensures reads { length reads.new.items ≡ length reads.old.items }
    ensures keeps { KeepsObjects cells words.old.items words.new.items }
    ensures step { (st : State Told) → IsShown formula.now flows.old.items words.old.items reads.old.items st → IfOk result (OwnStep code.now setup.now formula.now thread st flows.new.items words.new.items reads.new.items) }
{
    let _ = code;
    let _ = setup;
    let flow = &mut flows[usize::from(thread)];
    let own = own_step(flow, words, cells, thread)?;
    match own {
        Own::Stays => Ok(PartEnd::Refused),
        Own::Outside => Ok(PartEnd::Outside),
        Own::Marked => Ok(PartEnd::Made),
        Own::Accessed(access) => {
            keep(reads, thread, formula, access)?;
            Ok(PartEnd::Made)
        }
    }
}

// So many own steps of a thread that make no entry, if there are as many.
fn own_steps_in(
    code: &Code,
    setup: &Setup,
    flows: &mut Vec<Flow>,
    words: &mut Vec<u64>,
    reads: &mut Vec<List<Access>>,
    cells: u32,
    thread: u8,
    count: u32,
    formula: &Formula,
) -> Result<PartEnd, AllocError>
    requires all { RunAll code.now setup.now 0 flows.old.items }
    requires thread { thread < length flows.old.items }
    requires reads { length reads.old.items ≡ length flows.old.items }
    requires cells { cells ≡ cells_of code.now setup.now }
    requires words { cells ≤ length words.old.items }
    ensures all { RunAll code.now setup.now 0 flows.new.items }
    ensures flows { length flows.new.items ≡ length flows.old.items }
    ensures reads { length reads.new.items ≡ length reads.old.items }
    ensures keeps { KeepsObjects cells words.old.items words.new.items }
    ensures steps { (st : State Told) → IsShown formula.now flows.old.items words.old.items reads.old.items st → IfOk result (OwnSteps code.now setup.now formula.now count thread st flows.new.items words.new.items reads.new.items) }
{
    let mut left = count;
    while left > 0 {
        let end = own_step_in(code, setup, flows, words, reads, cells, thread, formula)?;
        match end {
            PartEnd::Made => {}
            PartEnd::Refused => return Ok(PartEnd::Refused),
            PartEnd::Outside => return Ok(PartEnd::Outside),
        }
        left -= 1;
    }
    Ok(PartEnd::Made)
}

// The operation that makes an entry, in its thread; what it prints is put after the bytes that are there.
fn make_in(
    code: &Code,
    setup: &Setup,
    flows: &mut Vec<Flow>,
    words: &mut Vec<u64>,
    out: &mut Bytes,
    cells: u32,
    entry: Entry,
) -> Result<bool, AllocError>
    requires runnable { IsRunnable code.now }
    requires limits { IsWithinLimits setup.now }
    requires small { entry.thread < 16 }
    requires all { RunAll code.now setup.now 0 flows.old.items }
    requires thread { entry.thread < length flows.old.items }
    requires cells { cells ≡ cells_of code.now setup.now }
    requires words { AreUsable code.now setup.now words.old.items }
    ensures all { RunAll code.now setup.now 0 flows.new.items }
    ensures flows { length flows.new.items ≡ length flows.old.items }
    ensures made { (f : FormulaOf) → (reads : ListOf (ListOf AccessOf)) → (st : State Told) → IsShown f flows.old.items words.old.items reads st → IfOk result (EntryStep code.now setup.now f entry st flows.new.items words.new.items reads out.old out.new) }
{
    let _ = code;
    let _ = setup;
    let flow = &mut flows[usize::from(entry.thread)];
    let made = make_entry(flow, words, cells, entry)?;
    match made {
        Made::Refused => Ok(false),
        Made::Silent => Ok(true),
        Made::Printed(bytes) => {
            out.extend_from_slice(bytes.as_slice())?;
            Ok(true)
        }
    }
}

fn count_in(flows: &[Flow], thread: u8) -> u32
    requires { thread < length flows.now }
    ensures { (r : Running) → slice_get flows.now thread ≡ Some r → result ≡ r.kept.thread.count }
{
    let flow = &flows[usize::from(thread)];
    flow.count()
}

/// The part of one entry in a walk: its thread goes alone up to the entry's count, and then makes the entry. `words`
/// are those of all cells and objects, and `reads` are the accesses that were kept of each thread. What is printed is
/// put after `out`. The answer tells whether the part is allowed, and if it isn't, whether that is for want of a cell.
pub fn walk_part(
    code: &Code,
    setup: &Setup,
    flows: &mut Vec<Flow>,
    words: &mut Vec<u64>,
    reads: &mut Vec<List<Access>>,
    out: &mut Bytes,
    cells: u32,
    entry: Entry,
    formula: &Formula,
) -> Result<PartEnd, AllocError>
    requires runnable { IsRunnable code.now }
    requires limits { IsWithinLimits setup.now }
    requires all { RunAll code.now setup.now 0 flows.old.items }
    requires threads { length flows.old.items ≡ setup.now.slots }
    requires reads { length reads.old.items ≡ length flows.old.items }
    requires cells { cells ≡ cells_of code.now setup.now }
    requires len { cells ≤ length words.old.items }
    requires words { AreUsable code.now setup.now words.old.items }
    ensures all { RunAll code.now setup.now 0 flows.new.items }
    ensures flows { length flows.new.items ≡ length flows.old.items }
    ensures reads { length reads.new.items ≡ length reads.old.items }
    ensures part { (st : State Told) → IsShown formula.now flows.old.items words.old.items reads.old.items st → IfOk result (PartEndIs code.now setup.now formula.now entry st flows.new.items words.new.items reads.new.items out.old out.new) }
{
    if usize::from(entry.thread) >= flows.len() {
        return Ok(PartEnd::Refused);
    }
    let count = entry.count.saturating_sub(count_in(flows, entry.thread));
    let end = own_steps_in(
        code,
        setup,
        flows,
        words,
        reads,
        cells,
        entry.thread,
        count,
        formula,
    )?;
    match end {
        PartEnd::Made => {}
        PartEnd::Refused => return Ok(PartEnd::Refused),
        PartEnd::Outside => return Ok(PartEnd::Outside),
    }
    let made = make_in(code, setup, flows, words, out, cells, entry)?;
    if made {
        Ok(PartEnd::Made)
    } else {
        Ok(PartEnd::Refused)
    }
}

/// The same, where it doesn't matter why: the answer is false exactly where the part isn't allowed.
pub fn make_part(
    code: &Code,
    setup: &Setup,
    flows: &mut Vec<Flow>,
    words: &mut Vec<u64>,
    reads: &mut Vec<List<Access>>,
    out: &mut Bytes,
    cells: u32,
    entry: Entry,
    formula: &Formula,
) -> Result<bool, AllocError>
    requires runnable { IsRunnable code.now }
    requires limits { IsWithinLimits setup.now }
    requires all { RunAll code.now setup.now 0 flows.old.items }
    requires threads { length flows.old.items ≡ setup.now.slots }
    requires reads { length reads.old.items ≡ length flows.old.items }
    requires cells { cells ≡ cells_of code.now setup.now }
    requires len { cells ≤ length words.old.items }
    requires words { AreUsable code.now setup.now words.old.items }
    ensures all { RunAll code.now setup.now 0 flows.new.items }
    ensures flows { length flows.new.items ≡ length flows.old.items }
    ensures reads { length reads.new.items ≡ length reads.old.items }
    ensures part { (st : State Told) → IsShown formula.now flows.old.items words.old.items reads.old.items st → IfOk result (PartStep code.now setup.now formula.now entry st flows.new.items words.new.items reads.new.items out.old out.new) }
{
    let end = walk_part(code, setup, flows, words, reads, out, cells, entry, formula)?;
    match end {
        PartEnd::Made => Ok(true),
        PartEnd::Refused => Ok(false),
        PartEnd::Outside => Ok(false),
    }
}
