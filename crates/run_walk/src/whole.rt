// What a walk comes to that takes all entries of a run's log.
ghost use Rattle.std.specs.Prelude.{◌≡◌, ◌≤◌, ◌<◌, ◌^◌, ◌-◌, ◌+◌, [], length, IfOk, MatchOption, true};
ghost use Rattle.core_run.specs.Walks.{NoTrap, TrapOf, WalkIs};
ghost use Rattle.thread_interpreter.specs.declared.access.Formula.{Formula as FormulaOf};
ghost use Rattle.flow_code.specs.Settle.{IsRunnable};
ghost use Rattle.flow_code.specs.declared.code.Code.{Code as CodeOf};
ghost use Rattle.sync_objects.specs.Setup.{SetupView};
ghost use Rattle.run_walk.specs.Remains.{HaveKept, IsWalked, endings_in, reads_in, trap_in};

use crate::printed::bytes_of;
use crate::remains::Remains;
use core_run::{Entry, Setup, Walk, walk};
use flow_code::Code;
use rr_base::{List, Trap};
use std::alloc::{AllocError, Global};
use thread_interpreter::{Access, Ending, Formula};

// How the threads have ended, in their order.
fn endings_of(alloc: Global, remains: &[Remains]) -> Result<List<Ending>, AllocError>
    ensures { IfOk result (λ it. it ≡ endings_in remains.now) }
{
    let mut found = List::new(alloc);
    let mut rest = remains;
    while let [thread, more @ ..] = rest {
        if let Some(ending) = thread.ending {
            found.push(ending)?;
        }
        rest = more;
    }
    Ok(found)
}

// The lowest thread that has trapped, and the kind and the line of its trap.
fn first_trap(remains: &[Remains]) -> Option<(u8, Trap, u32)>
    requires { length remains.now ≤ 16 }
    ensures { MatchOption result (trap_in 0 remains.now ≡ NoTrap) (λ it. trap_in 0 remains.now ≡ TrapOf it.0 it.1 it.2) }
{
    let mut number = 0;
    let mut rest = remains;
    while let [thread, more @ ..] = rest {
        if let Some((kind, line)) = thread.trap {
            return Some((number, kind, line));
        }
        number += 1;
        rest = more;
    }
    None
}

// The accesses that were kept of the threads, in their order.
fn reads_of(alloc: Global, remains: &[Remains]) -> Result<List<Access>, AllocError>
    ensures { IfOk result (λ it. it ≡ reads_in remains.now) }
{
    let mut all = List::new(alloc);
    let mut rest = remains;
    while let [thread, more @ ..] = rest {
        all.extend_from_slice(thread.reads.as_slice())?;
        rest = more;
    }
    Ok(all)
}

// Whether they all have kept accesses by this formula.
fn have_kept(formula: &Formula, remains: &[Remains]) -> bool
    ensures { result ≡ true → HaveKept formula.now remains.now }
{
    let mut rest = remains;
    while let [thread, more @ ..] = rest {
        if thread.formula != *formula {
            return false;
        }
        rest = more;
    }
    true
}

// The walk by what remains of its threads.
pub(crate) fn from_remains(
    alloc: Global,
    entries: &List<Entry>,
    remains: &[Remains],
) -> Result<Walk, AllocError>
    requires { length remains.now ≤ 16 }
    ensures { IfOk result (λ walk. (code : CodeOf) (s : SetupView) (f : FormulaOf) → HaveKept f remains.now → IsWalked code s entries.now remains.now → WalkIs code s entries.now f walk) }
{
    let out = bytes_of(alloc, entries, remains)?;
    let reads = reads_of(alloc, remains)?;
    let ends = endings_of(alloc, remains)?;
    match first_trap(remains) {
        None => Ok(Walk::Done { out, reads, ends }),
        Some((thread, kind, line)) => Ok(Walk::Trapped {
            kind,
            thread,
            line,
            out,
            reads,
            ends,
        }),
    }
}

/// The walk of the entries, at whose end all threads have ended and this remains of them. The entries are walked only where
/// accesses were kept by another formula.
pub fn whole_walk(
    alloc: Global,
    code: &Code,
    setup: &Setup,
    entries: &List<Entry>,
    formula: &Formula,
    remains: &[Remains],
) -> Result<Walk, AllocError>
    requires runnable { IsRunnable code.now }
    requires few { length entries.now < 2 ^ 32 - 1 }
    requires walked { IsWalked code.now setup.now entries.now remains.now }
    ensures { IfOk result (WalkIs code.now setup.now entries.now formula.now) }
{
    let _slots = setup.slots();
    if have_kept(formula, remains) {
        from_remains(alloc, entries, remains)
    } else {
        walk(alloc, code, setup, entries, formula)
    }
}
