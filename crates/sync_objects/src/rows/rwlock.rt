//! Read-write locks: in the low 16 bits of a state the bit of each thread that holds the lock for reading, and above them
//! 0, or one more than the thread that holds it for writing.

ghost use Rattle.std.specs.Prelude.{◌≡◌, ℕ, ◌/◌, ◌^◌, ◌<◌, ◌≤◌};
ghost use Rattle.sync_objects.specs.declared.operation.Op.TheVariants as op;
ghost use Rattle.sync_objects.specs.Moved.{moved, Gives};
ghost use Rattle.sync_objects.specs.Packing.{rw_of};
ghost use Rattle.sync_objects.specs.States.{reads, writes};
ghost use Rattle.sync_objects.specs.Table.{Moves};

use crate::rows::moved::{DONE, MISUSE, Moved};

/// Nobody holds it.
pub const UNHELD: u32 = 0;

/// One of the writer's part; below it are the bits of the readers.
const WRITER: u32 = 0x1_0000;

#[tactic(auto, using(crate::proofs::Readers::small_bit))]
fn bit_of(thread: u8) -> u32
    requires { thread < 16 }
    ensures value { result ≡ 2 ^ thread }
    ensures small { result < 65536 }
{
    1 << thread
}

fn is_reader(thread: u8, state: u32) -> bool
    requires { thread < 16 }
    ensures { result ≡ reads thread (rw_of state) }
{
    ((state % WRITER) >> thread) & 1 == 1
}

#[tactic(auto, using(crate::proofs::RwRows::writing))]
fn is_writer(thread: u8, state: u32) -> bool
    ensures { result ≡ writes thread (rw_of state) }
{
    state >> 16 == thread as u32 + 1
}

/// `pthread_rwlock_rdlock`: waits until no thread holds the lock for writing. A thread that holds it already misuses it.
#[tactic(auto, using(crate::proofs::RwRows::read_locking))]
pub fn read_lock(thread: u8, state: u32) -> Option<Moved>
    requires thread { thread < 16 }
    requires writer { state / 65536 ≤ 16 }
    ensures { Gives (moved op.RdLock thread state) result }
{
    if is_reader(thread, state) || is_writer(thread, state) {
        Some(Moved::new(state, MISUSE))
    } else if state >> 16 == 0 {
        Some(Moved::new(state + bit_of(thread), DONE))
    } else {
        None
    }
}

/// `pthread_rwlock_wrlock`: waits until nobody holds the lock. A thread that holds it already misuses it.
#[tactic(auto, using(crate::proofs::RwRows::write_locking))]
pub fn write_lock(thread: u8, state: u32) -> Option<Moved>
    requires { thread < 16 }
    ensures { Gives (moved op.WrLock thread state) result }
{
    if is_reader(thread, state) || is_writer(thread, state) {
        Some(Moved::new(state, MISUSE))
    } else if state == UNHELD {
        Some(Moved::new((thread as u32 + 1) << 16, DONE))
    } else {
        None
    }
}

/// `pthread_rwlock_unlock`, whichever way the thread holds the lock. One that doesn't hold it misuses it.
#[tactic(auto, using(crate::proofs::RwRows::unlocking))]
pub fn unlock(thread: u8, state: u32) -> Moved
    requires { thread < 16 }
    ensures { moved op.RwUnlock thread state ≡ Moves result.state result.answer }
{
    match (is_reader(thread, state), is_writer(thread, state)) {
        (false, false) => Moved::new(state, MISUSE),
        (true, false) => Moved::new(state - bit_of(thread), DONE),
        (false, true) => Moved::new(state % WRITER, DONE),
        (true, true) => Moved::new((state - bit_of(thread)) % WRITER, DONE),
    }
}

/// `pthread_rwlock_init`, which is a misuse of a lock that somebody holds.
#[tactic(auto, using(crate::proofs::RwRows::initialising))]
pub fn init(state: u32) -> Moved
    ensures { (thread : ℕ) → moved op.RwInit thread state ≡ Moves result.state result.answer }
{
    Moved::new(state, if state == UNHELD { DONE } else { MISUSE })
}
