// Why a checkpoint is refused.

ghost use Rattle.std.specs.Prelude.{◌≡◌};
ghost use Rattle.snapshot_reader.specs.declared.fault.SnapshotFault.TheVariants.{OutOfMemory};

use std::alloc::AllocError;

/// Why there is no snapshot. Lines count from 1; the greatest number stands for all from there on.
#[derive(Clone, Copy, Debug, PartialEq, Eq)]
pub enum SnapshotFault {
    /// 25: the first line that no checkpoint has there, or that is missing or unfinished. 26: the first line that a checkpoint may
    /// have there, but none of this code and this log.
    Refused { number: u8, line: u32 },
    /// There is too little memory.
    OutOfMemory,
}

impl From<AllocError> for SnapshotFault {
    ghost from_gives = { λ _ e. e ≡ OutOfMemory };

    fn from(_e: AllocError) -> SnapshotFault {
        SnapshotFault::OutOfMemory
    }
}
