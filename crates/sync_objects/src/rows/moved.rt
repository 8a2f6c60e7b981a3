ghost use Rattle.std.specs.Prelude.{◌≡◌, ◌≤ℤ◌, pos, negsuc};

/// The answer of an operation that was done.
pub const DONE: i64 = 0;

/// The answer of a misuse, which keeps the state.
pub const MISUSE: i64 = -2;

/// The answer of a `pthread_mutex_trylock` of a mutex that isn't free.
pub const EBUSY: i64 = 16;

/// The answer to the thread that comes last to a barrier.
pub const PTHREAD_BARRIER_SERIAL_THREAD: i64 = -1;

/// The packed state after an operation, and its answer.
#[derive(Clone, Copy, Debug, PartialEq, Eq)]
pub struct Moved {
    pub state: u32,
    pub answer: i64,
}

impl Moved {
    /// The object's word after an operation, and what the operation answers.
    pub fn new(state: u32, answer: i64) -> Moved
        ensures state { result.state ≡ state }
        ensures answer { result.answer ≡ answer }
    {
        Moved { state, answer }
    }
}
