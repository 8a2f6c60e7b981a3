//! The locks after an instruction.
ghost use Rattle.std.specs.Prelude.{◌≡◌, true, map, IfOk};
ghost use Rattle.std.specs.List.{list_all};
ghost use Rattle.facts.specs.Locks.{locks_are_small};
ghost use Rattle.facts.specs.Paths.{actual_of, are_small_actuals};
ghost use Rattle.lockset_flow.specs.Rounds.{library_by, after_by};

use crate::calls::actuals;
use facts::{Naming, RelLocks};
use flow_code::Act;
use std::alloc::{AllocError, Global};
use sync_objects::Mode;
use word_semantics::LibraryCall;

// The locks after a library call; a wait gives its mutex back and takes it again.
fn after_library(
    alloc: Global,
    call: &LibraryCall,
    names: &[Naming],
    locks: &RelLocks,
) -> Result<RelLocks, AllocError>
    ensures { IfOk result (λ l. l ≡ library_by call.now names.now locks.now) }
{
    match (call, names) {
        (LibraryCall::MutexLock | LibraryCall::RwWrLock, [lock]) => {
            locks.locked(alloc, Mode::Write, *lock)
        }
        (LibraryCall::RwRdLock, [lock]) => locks.locked(alloc, Mode::Read, *lock),
        (LibraryCall::MutexUnlock | LibraryCall::RwUnlock, [lock]) => {
            locks.unlocked(alloc, *lock)
        }
        (LibraryCall::CondWait, [_, mutex]) => {
            let waiting = locks.unlocked(alloc, *mutex)?;
            waiting.locked(alloc, Mode::Write, *mutex)
        }
        _ => locks.copied(alloc),
    }
}

/// The locks after an instruction whose arguments have these names, where the functions of the code have these exits.
pub fn after(
    alloc: Global,
    act: &Act,
    names: &[Naming],
    exits: &[RelLocks],
    locks: &RelLocks,
) -> Result<RelLocks, AllocError>
    requires names { are_small_actuals (map actual_of names.now) ≡ true }
    requires exits { list_all locks_are_small exits.now ≡ true }
    ensures { IfOk result (λ l. l ≡ after_by exits.now names.now act.now locks.now) }
{
    match act {
        Act::Library { call, .. } => after_library(alloc, call, names, locks),
        Act::Call { function, .. } => match exits.get(*function as usize) {
            Some(exit) => {
                let actuals = actuals(alloc, names)?;
                locks.through(alloc, actuals.as_slice(), exit)
            }
            None => locks.copied(alloc),
        },
        _ => locks.copied(alloc),
    }
}
