ghost use Rattle.std.specs.Prelude.{◌≡◌};

use rr_base::Position;
use std::alloc::{AllocError, AllocFailed};
use thiserror::Error;

/// What can be wrong with a source, without its place.
#[derive(Clone, Copy)]
pub enum Fault {
    BadByte,
    OpenComment,
    OpenText,
    BadEscape,
    WideNumber,
    BadDirective,
}

/// The first fault of a source, with the place at which it stands.
#[derive(Clone, Copy, Debug, PartialEq, Eq, Error)]
pub enum LexFault {
    /// The byte begins no token, or is a letter, digit or `_` right after a number (C99 6.4, 6.4.8).
    #[error("{}:{}: no token begins here", .at.line, .at.column)]
    BadByte { at: Position },
    /// The comment that begins here has no end (C99 6.4.9).
    #[error("{}:{}: the comment has no end", .at.line, .at.column)]
    OpenComment { at: Position },
    /// The text or letter that begins here has no end on its line, or the letter isn't one byte
    /// (C99 6.4.4.4, 6.4.5).
    #[error("{}:{}: the text or letter has no end on its line", .at.line, .at.column)]
    OpenText { at: Position },
    /// The escape that begins here isn't one of the profile (C99 6.4.4.4).
    #[error("{}:{}: the escape isn't one of the language", .at.line, .at.column)]
    BadEscape { at: Position },
    /// The number that begins here is above 2^63 - 1 (C99 6.4.4.1).
    #[error("{}:{}: the number is above 2^63 - 1", .at.line, .at.column)]
    WideNumber { at: Position },
    /// The directive that begins here isn't one of the profile (C99 6.10).
    #[error("{}:{}: the directive isn't one of the language", .at.line, .at.column)]
    BadDirective { at: Position },
    /// The machine has no memory left for the tokens.
    #[error("out of memory")]
    OutOfMemory,
}

impl LexFault {
    ghost use Rattle.c_lexer.specs.Faults.{number_of, place_of};

    /// The number by which messages tell the fault, from 1; none for `OutOfMemory`.
    pub fn number(&self) -> Option<u8>
        ensures { result ≡ number_of self.now }
    {
        match self {
            LexFault::BadByte { .. } => Some(1),
            LexFault::OpenComment { .. } => Some(2),
            LexFault::OpenText { .. } => Some(3),
            LexFault::BadEscape { .. } => Some(4),
            LexFault::WideNumber { .. } => Some(5),
            LexFault::BadDirective { .. } => Some(6),
            LexFault::OutOfMemory => None,
        }
    }

    /// Where the fault stands; nowhere for `OutOfMemory`.
    pub fn place(&self) -> Option<Position>
        ensures { result ≡ place_of self.now }
    {
        match self {
            LexFault::BadByte { at }
            | LexFault::OpenComment { at }
            | LexFault::OpenText { at }
            | LexFault::BadEscape { at }
            | LexFault::WideNumber { at }
            | LexFault::BadDirective { at } => Some(*at),
            LexFault::OutOfMemory => None,
        }
    }
}

impl From<AllocError> for LexFault {
    ghost use Rattle.c_lexer.specs.declared.fault.LexFault.TheVariants.{OutOfMemory};

    ghost from_gives = { λ _ e. e ≡ OutOfMemory };

    fn from(_: AllocError) -> LexFault {
        LexFault::OutOfMemory
    }
}

impl<T: Drop> From<AllocFailed<T>> for LexFault {
    ghost use Rattle.c_lexer.specs.declared.fault.LexFault.TheVariants.{OutOfMemory};

    ghost from_gives = { λ _ e. e ≡ OutOfMemory };

    fn from(_: AllocFailed<T>) -> LexFault {
        LexFault::OutOfMemory
    }
}
