use crate::name::Name;
use rr_base::Position;

/// The words that name a type (C99 6.7.2 and `<pthread.h>`). The place is that of the first word.
#[derive(Debug, Drop)]
pub enum Specifier {
    Int {
        at: Position,
    },
    /// `long`, then maybe a second `long`, then maybe `int`.
    Long {
        second: bool,
        int: bool,
        at: Position,
    },
    Void {
        at: Position,
    },
    Struct {
        name: Name,
        at: Position,
    },
    PthreadT {
        at: Position,
    },
    PthreadMutexT {
        at: Position,
    },
    PthreadCondT {
        at: Position,
    },
    PthreadBarrierT {
        at: Position,
    },
    PthreadRwlockT {
        at: Position,
    },
}

/// The name of a type (C99 6.7.6): a specifier and so many stars. The place is that of its first token.
#[derive(Debug, Drop)]
pub struct CType {
    pub specifier: Specifier,
    pub stars: usize,
    pub at: Position,
}
