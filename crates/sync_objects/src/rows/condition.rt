//! Conditions: the state is the epoch.

ghost use Rattle.std.specs.Prelude.{◌≡◌, ℕ, ◌+◌, ◌<◌, ◌^◌};
ghost use Rattle.sync_objects.specs.declared.operation.Op.TheVariants as op;
ghost use Rattle.sync_objects.specs.Moved.{moved, Gives};
ghost use Rattle.sync_objects.specs.Table.{Moves};

use crate::rows::moved::{DONE, Moved};

/// The start of `pthread_cond_wait`: answers the epoch in which the thread begins to wait.
pub fn enter(state: u32) -> Moved
    ensures { (thread : ℕ) → moved op.CondEnter thread state ≡ Moves result.state result.answer }
{
    Moved::new(state, state as i64)
}

/// The end of the waiting of `pthread_cond_wait`: waits until another epoch has come.
pub fn wake(epoch: u32, state: u32) -> Option<Moved>
    ensures { (thread : ℕ) → Gives (moved (op.CondWake epoch) thread state) result }
{
    if state == epoch {
        None
    } else {
        Some(Moved::new(state, DONE))
    }
}

/// `pthread_cond_signal` and `pthread_cond_broadcast`: the next epoch begins, which wakes all that wait.
pub fn signal(state: u32) -> Moved
    requires { state + 1 < 2 ^ 32 }
    ensures { (thread : ℕ) → moved op.Signal thread state ≡ Moves result.state result.answer }
{
    Moved::new(state + 1, DONE)
}
