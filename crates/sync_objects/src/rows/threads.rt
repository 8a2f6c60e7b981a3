//! The threads that were drawn, in the low 5 bits of the state, and those that are live, above them.

ghost use Rattle.std.specs.Prelude.{◌≡◌, ℕ, ◌+◌, ◌<◌, ◌^◌, ◌%◌, ◌/◌, ◌≤◌};
ghost use Rattle.sync_objects.specs.declared.operation.Op.TheVariants as op;
ghost use Rattle.sync_objects.specs.Moved.{moved, Gives};

use crate::rows::moved::{DONE, Moved};

/// One thread that is live, in a state.
const ONE_LIVE: u32 = 32;

/// One thread is drawn, and it is live.
pub const START: u32 = 33;

/// `pthread_create` draws the number of the next thread, or 0 where all `slots` are drawn.
pub fn draw(slots: u8, state: u32) -> Option<Moved>
    requires slots { slots ≤ 16 }
    requires live { state / 32 ≤ 16 }
    ensures { (thread : ℕ) → Gives (moved (op.Draw slots) thread state) result }
{
    let slots = slots as u32;
    let drawn = state & 0x1f;
    if drawn < slots {
        Some(Moved::new(state + 1 + ONE_LIVE, drawn as i64))
    } else if drawn == slots {
        Some(Moved::new(state, DONE))
    } else {
        None
    }
}

/// A thread that has ended is live no more.
pub fn leave(state: u32) -> Option<Moved>
    ensures { (thread : ℕ) → Gives (moved op.Leave thread state) result }
{
    if state < ONE_LIVE {
        None
    } else {
        Some(Moved::new(state - ONE_LIVE, DONE))
    }
}
