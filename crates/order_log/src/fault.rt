ghost use Rattle.std.specs.Prelude.{◌≡◌};
ghost use Rattle.order_log.specs.declared.fault.LogFault.TheVariants.{OutOfMemory};

use std::alloc::{AllocError, AllocFailed};
use thiserror::Error;

/// Why a log is refused. Lines count from 1.
#[derive(Clone, Copy, Debug, PartialEq, Eq, Error)]
pub enum LogFault {
    /// The first line that no log has there, or that is missing or unfinished.
    #[error("line {0}: no log has this line here")]
    LogSyntax(u32),
    /// The first line that a log may have there, but none within the limits.
    #[error("line {0}: not within the limits")]
    LogLimit(u32),
    /// There is too little memory.
    #[error("out of memory")]
    OutOfMemory,
}

impl From<AllocError> for LogFault {
    ghost from_gives = { λ _ e. e ≡ OutOfMemory };

    fn from(_e: AllocError) -> LogFault {
        LogFault::OutOfMemory
    }
}

impl<T: Drop> From<AllocFailed<T>> for LogFault {
    ghost from_gives = { λ _ e. e ≡ OutOfMemory };

    fn from(_e: AllocFailed<T>) -> LogFault {
        LogFault::OutOfMemory
    }
}
