//! Mutexes, and stripes of weak locks: 0 is free, and one more than a thread is held by it.

ghost use Rattle.std.specs.Prelude.{◌≡◌, ℕ, ◌+◌};
ghost use Rattle.sync_objects.specs.declared.operation.Op.TheVariants as op;
ghost use Rattle.sync_objects.specs.Moved.{moved, Gives};
ghost use Rattle.sync_objects.specs.Table.{Moves};

use crate::rows::moved::{DONE, EBUSY, MISUSE, Moved};

/// Nobody holds it.
pub const FREE: u32 = 0;

fn held_by(thread: u8) -> u32
    ensures { result ≡ thread + 1 }
{
    thread as u32 + 1
}

/// `pthread_mutex_lock`: waits for a free mutex. A thread that holds it already misuses it.
pub fn lock(thread: u8, state: u32) -> Option<Moved>
    ensures { Gives (moved op.Lock thread state) result }
{
    let held = held_by(thread);
    if state == FREE {
        Some(Moved::new(held, DONE))
    } else if state == held {
        Some(Moved::new(state, MISUSE))
    } else {
        None
    }
}

/// `pthread_mutex_trylock`, which never waits.
pub fn try_lock(thread: u8, state: u32) -> Moved
    ensures { moved op.TryLock thread state ≡ Moves result.state result.answer }
{
    if state == FREE {
        Moved::new(held_by(thread), DONE)
    } else {
        Moved::new(state, EBUSY)
    }
}

/// `pthread_mutex_unlock`. A thread that doesn't hold the mutex misuses it.
pub fn unlock(thread: u8, state: u32) -> Moved
    ensures { moved op.Unlock thread state ≡ Moves result.state result.answer }
{
    if state == held_by(thread) {
        Moved::new(FREE, DONE)
    } else {
        Moved::new(state, MISUSE)
    }
}

/// `pthread_mutex_init`, which is a misuse of a held mutex.
pub fn init(state: u32) -> Moved
    ensures { (thread : ℕ) → moved op.MutexInit thread state ≡ Moves result.state result.answer }
{
    Moved::new(state, if state == FREE { DONE } else { MISUSE })
}

/// Takes a stripe, for the first time or again.
pub fn take(thread: u8, state: u32) -> Option<Moved>
    ensures take { Gives (moved op.Take thread state) result }
    ensures retake { Gives (moved op.Retake thread state) result }
{
    if state == FREE {
        Some(Moved::new(held_by(thread), DONE))
    } else {
        None
    }
}

/// Gives a stripe back, by the thread's own will or not.
pub fn give(thread: u8, state: u32) -> Option<Moved>
    ensures give { Gives (moved op.Give thread state) result }
    ensures revoke { Gives (moved op.Revoke thread state) result }
{
    if state == held_by(thread) {
        Some(Moved::new(FREE, DONE))
    } else {
        None
    }
}
