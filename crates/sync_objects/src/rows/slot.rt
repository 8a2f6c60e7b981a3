//! Slots: from `FIRST_STARTED` on a state tells the number of the started function.

ghost use Rattle.std.specs.Prelude.{◌≡◌, ℕ, ◌+◌, ◌<◌, ◌^◌};
ghost use Rattle.sync_objects.specs.declared.operation.Op.TheVariants as op;
ghost use Rattle.sync_objects.specs.Moved.{moved, Gives};

use crate::rows::moved::{DONE, MISUSE, Moved};

/// Nothing is started in the slot.
pub const IDLE: u32 = 0;

const CLOSED: u32 = 1;

/// The slot's thread has begun.
pub const BEGUN: u32 = 2;

const ENDED: u32 = 3;

const JOINED: u32 = 4;

const SHUT: u32 = 5;

const FIRST_STARTED: u32 = 6;

/// `pthread_create`: the slot's thread may begin with this function, unless the slot is closed.
pub fn start(function: u32, state: u32) -> Option<Moved>
    requires { function < 2 ^ 20 }
    ensures { (thread : ℕ) → Gives (moved (op.Start function) thread state) result }
{
    match state {
        IDLE => Some(Moved::new(FIRST_STARTED + function, DONE)),
        CLOSED => Some(Moved::new(SHUT, DONE)),
        _ => None,
    }
}

/// The thread's first operation, which is answered the function.
pub fn begin(state: u32) -> Option<Moved>
    ensures { (thread : ℕ) → Gives (moved op.Begin thread state) result }
{
    if state < FIRST_STARTED {
        None
    } else {
        Some(Moved::new(BEGUN, (state - FIRST_STARTED) as i64))
    }
}

/// The end of the thread's function.
pub fn end(state: u32) -> Option<Moved>
    ensures { (thread : ℕ) → Gives (moved op.End thread state) result }
{
    if state == BEGUN {
        Some(Moved::new(ENDED, DONE))
    } else {
        None
    }
}

/// `pthread_join`: waits for the thread's end. A misuse where no thread was started, or it was joined.
pub fn join(state: u32) -> Option<Moved>
    ensures { (thread : ℕ) → Gives (moved op.Join thread state) result }
{
    match state {
        ENDED => Some(Moved::new(JOINED, DONE)),
        IDLE | JOINED | CLOSED => Some(Moved::new(state, MISUSE)),
        _ => None,
    }
}

/// An idle slot takes no thread any more.
pub fn close(state: u32) -> Option<Moved>
    ensures { (thread : ℕ) → Gives (moved op.Close thread state) result }
{
    if state == IDLE {
        Some(Moved::new(CLOSED, DONE))
    } else {
        None
    }
}
