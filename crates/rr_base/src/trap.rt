ghost use Rattle.std.specs.Prelude.{◌≡◌};
ghost use Rattle.rr_base.specs.Traps.{trap_number};

/// Why a thread traps: each case that C99 leaves undefined and that a run can meet, and each limit of a run.
#[derive(Clone, Copy, Debug, PartialEq, Eq)]
pub enum Trap {
    /// Division by zero (C99 6.5.5).
    DivideByZero,
    /// A result outside 64 bits (C99 6.5).
    Overflow,
    /// A shift by a number outside 0 to 63 (C99 6.5.7).
    ShiftRange,
    /// Access through a pointer to no object (C99 6.5.3.2).
    BadDereference,
    /// A pointer moved or read outside its object (C99 6.5.6).
    OutOfObject,
    /// Access to a cell as another kind than it has (C99 6.5).
    BadKind,
    /// `malloc` of a size that no object has.
    BadSize,
    /// The thread's arena has no room for the object.
    ArenaFull,
    /// A mutex is used against its rules (POSIX `pthread_mutex_lock`).
    MutexMisuse,
    /// A barrier is used against its rules (POSIX `pthread_barrier_init`).
    BarrierMisuse,
    /// Join of a thread that can't be joined (POSIX `pthread_join`).
    BadThread,
    /// The thread has made all its events, or printed all its bytes.
    Limit,
    /// A number that no pointer word holds.
    CastRange,
    /// A pointer to an object where a number is asked for.
    PointerToNumber,
    /// Comparison of pointers into two objects (C99 6.5.8).
    CompareObjects,
    /// A call above the greatest depth.
    Depth,
    /// The thread's list of entries is full.
    LogFull,
    /// A read-write lock is used against its rules (POSIX `pthread_rwlock_rdlock`), or held twice by one thread.
    RwMisuse,
}

impl Trap {
    /// The number by which texts name the trap, from 1 to 18.
    pub fn number(self) -> u8
        ensures { result ≡ trap_number self }
    {
        match self {
            Trap::DivideByZero => 1,
            Trap::Overflow => 2,
            Trap::ShiftRange => 3,
            Trap::BadDereference => 4,
            Trap::OutOfObject => 5,
            Trap::BadKind => 6,
            Trap::BadSize => 7,
            Trap::ArenaFull => 8,
            Trap::MutexMisuse => 9,
            Trap::BarrierMisuse => 10,
            Trap::BadThread => 11,
            Trap::Limit => 12,
            Trap::CastRange => 13,
            Trap::PointerToNumber => 14,
            Trap::CompareObjects => 15,
            Trap::Depth => 16,
            Trap::LogFull => 17,
            Trap::RwMisuse => 18,
        }
    }
}
