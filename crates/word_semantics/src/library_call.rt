use rr_base::List;

/// A call of the library (C99 7.19 and 7.20.3, POSIX threads).
#[derive(Debug, Drop)]
pub enum LibraryCall {
    Create { function: u32 },
    Join,
    Exit,
    SelfNumber,
    SameThread,
    MutexInit,
    MutexLock,
    MutexUnlock,
    MutexTryLock,
    MutexDestroy,
    CondInit,
    CondWait,
    /// `pthread_cond_signal` and `pthread_cond_broadcast`.
    CondSignal,
    CondDestroy,
    BarrierInit,
    BarrierWait,
    BarrierDestroy,
    RwInit,
    RwRdLock,
    RwWrLock,
    RwUnlock,
    RwDestroy,
    Free,
    GetChar,
    /// `printf` and `puts`.
    Print { format: List<Piece> },
    PutChar,
}

/// A piece of a format: a byte as it is, or the place of an argument.
#[derive(Clone, Copy, Debug, PartialEq, Eq)]
pub enum Piece {
    Byte(u8),
    Number,
    Letter,
}
