use rr_base::Trap;

/// How far a thread is in its life.
#[derive(Clone, Copy, Debug, PartialEq, Eq)]
pub enum Phase {
    /// Its slot hasn't been started, or it hasn't begun.
    Fresh,
    /// It has begun, to run this function.
    Begun(u32),
    /// It has loaded its argument, and enters the function next.
    Loaded { function: u32, argument: u64 },
    /// It runs in its frames.
    Running,
    /// Its function has ended, or it has called `pthread_exit`.
    Ended,
    /// `main` has returned in it.
    Halted,
    /// It has trapped, at this line.
    Trapped { kind: Trap, line: u32 },
    /// It was stopped, since the program had ended.
    Stopped,
    /// Its slot was closed before it began.
    Closed,
}

/// A stripe of a weak lock that a thread holds, or owes since it was revoked.
#[derive(Clone, Copy, Debug, PartialEq, Eq)]
pub struct Stripe {
    pub lock: u16,
    pub stripe: u8,
    pub owed: bool,
}
