//! The halt word: whether the program runs.

ghost use Rattle.std.specs.Prelude.{◌≡◌, ℕ, ◌≤◌};
ghost use Rattle.sync_objects.specs.declared.operation.Op.TheVariants as op;
ghost use Rattle.sync_objects.specs.Moved.{moved, Gives};

use crate::rows::moved::{DONE, Moved};

/// No thread has ended the run.
pub const RUNNING: u32 = 0;

const HALTED: u32 = 1;

const TRAPPED: u32 = 2;

/// The end of the program by `main`'s return.
pub fn halt(state: u32) -> Option<Moved>
    ensures { (thread : ℕ) → Gives (moved op.HaltAll thread state) result }
{
    if state == RUNNING {
        Some(Moved::new(HALTED, DONE))
    } else {
        None
    }
}

/// The end of the program by a trap.
pub fn trap(state: u32) -> Option<Moved>
    ensures { (thread : ℕ) → Gives (moved op.TrapHere thread state) result }
{
    if state == RUNNING {
        Some(Moved::new(TRAPPED, DONE))
    } else {
        None
    }
}

/// A thread stops, since the program has ended.
pub fn stop(state: u32) -> Option<Moved>
    requires { state ≤ 2 }
    ensures { (thread : ℕ) → Gives (moved op.Stop thread state) result }
{
    if state == RUNNING {
        None
    } else {
        Some(Moved::new(state, DONE))
    }
}
