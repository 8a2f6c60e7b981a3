//! Barriers: the count stands in the low 5 bits of a state, how many have arrived in the 5 bits above, and the
//! generation in the 22 bits above these.

ghost use Rattle.std.specs.Prelude.{◌≡◌, ℕ, ◌+◌, ◌*◌, ◌/◌, ◌%◌, ◌<◌, ◌^◌};
ghost use Rattle.sync_objects.specs.declared.operation.Op.TheVariants as op;
ghost use Rattle.sync_objects.specs.Moved.{moved, Gives};
ghost use Rattle.sync_objects.specs.Table.{Moves};

use crate::rows::moved::{DONE, MISUSE, Moved, PTHREAD_BARRIER_SERIAL_THREAD};

/// The greatest generation, at which a barrier can't be passed any more.
const LAST_GENERATION: u32 = 4_194_303;

#[derive(Clone, Copy)]
struct Parts {
    count: u32,
    arrived: u32,
    generation: u32,
}

fn parts_of(state: u32) -> Parts
    ensures { result ≡ record { count = state % 32; arrived = state / 32 % 32; generation = state / 1024 } }
{
    Parts {
        count: state & 0x1f,
        arrived: (state >> 5) & 0x1f,
        generation: state >> 10,
    }
}

fn packed(parts: Parts) -> u32
    requires count { parts.count < 32 }
    requires arrived { parts.arrived < 32 }
    requires generation { parts.generation < 2 ^ 22 }
    ensures { result ≡ parts.count + 32 * parts.arrived + 1024 * parts.generation }
{
    parts.count | (parts.arrived << 5) | (parts.generation << 10)
}

/// `pthread_barrier_init` for 1 to 16 threads. A misuse where some have come, or for another count.
pub fn init(count: u8, state: u32) -> Moved
    ensures { (thread : ℕ) → moved (op.BarrierInit count) thread state ≡ Moves result.state result.answer }
{
    let parts = parts_of(state);
    if 1 <= count && count <= 16 && parts.arrived == 0 {
        let count = count as u32;
        Moved::new(packed(Parts { count, ..parts }), DONE)
    } else {
        Moved::new(state, MISUSE)
    }
}

/// The start of `pthread_barrier_wait`: the last thread to come is told so, each other one gets the generation.
pub fn arrive(state: u32) -> Moved
    requires { state / 32 % 32 < 16 }
    ensures { (thread : ℕ) → moved op.Arrive thread state ≡ Moves result.state result.answer }
{
    let parts = parts_of(state);
    let arrived = parts.arrived + 1;
    let is_last = arrived == parts.count;
    if parts.count == 0 || is_last && parts.generation == LAST_GENERATION {
        Moved::new(state, MISUSE)
    } else if is_last {
        let generation = parts.generation + 1;
        let parts = Parts {
            arrived: 0,
            generation,
            ..parts
        };
        Moved::new(packed(parts), PTHREAD_BARRIER_SERIAL_THREAD)
    } else {
        let answer = parts.generation as i64;
        Moved::new(packed(Parts { arrived, ..parts }), answer)
    }
}

/// The end of `pthread_barrier_wait`: waits until the generation has passed.
pub fn pass(generation: u32, state: u32) -> Option<Moved>
    ensures { (thread : ℕ) → Gives (moved (op.Pass generation) thread state) result }
{
    if parts_of(state).generation == generation {
        None
    } else {
        Some(Moved::new(state, DONE))
    }
}
