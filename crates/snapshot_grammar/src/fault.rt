// Why a text has no draft.

ghost use Rattle.std.specs.Prelude.{◌≡◌};
ghost use Rattle.snapshot_grammar.specs.declared.fault.DraftFault.TheVariants.{OutOfMemory};

use std::alloc::AllocError;

/// Why a text is no checkpoint. Lines count from 1; the greatest number stands for all from there on.
#[derive(Clone, Copy, Debug, PartialEq, Eq)]
pub enum DraftFault {
    /// The first line that no checkpoint has there, or that is missing or unfinished.
    Syntax(u32),
    /// There is too little memory.
    OutOfMemory,
}

impl From<AllocError> for DraftFault {
    ghost from_gives = { λ _ e. e ≡ OutOfMemory };

    fn from(_e: AllocError) -> DraftFault {
        DraftFault::OutOfMemory
    }
}
