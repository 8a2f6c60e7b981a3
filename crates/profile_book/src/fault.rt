ghost use Rattle.std.specs.Prelude.{◌≡◌};
ghost use Rattle.profile_book.specs.declared.fault.ProfileFault.TheVariants.{OutOfMemory};

use std::alloc::{AllocError, AllocFailed};
use thiserror::Error;

/// Why a profile is refused.
#[derive(Clone, Copy, Debug, PartialEq, Eq, Error)]
pub enum ProfileFault {
    /// The bytes aren't a JSON text in UTF-8.
    #[error("the profile isn't JSON")]
    NotJson,
    /// The JSON text has another form than a profile.
    #[error("the profile isn't an object that lists pairs of texts under `pairs` alone")]
    NotProfile,
    /// There is too little memory.
    #[error("there is too little memory")]
    OutOfMemory,
}

impl ProfileFault {
    ghost use Rattle.profile_book.specs.Faults.{number_of};

    /// The number by which messages tell the fault; none for `OutOfMemory`.
    pub fn number(self) -> Option<u8>
        ensures { result ≡ number_of self }
    {
        match self {
            ProfileFault::NotJson => Some(21),
            ProfileFault::NotProfile => Some(22),
            ProfileFault::OutOfMemory => None,
        }
    }
}

impl From<AllocError> for ProfileFault {
    ghost from_gives = { λ _ e. e ≡ OutOfMemory };

    fn from(_: AllocError) -> ProfileFault {
        ProfileFault::OutOfMemory
    }
}

impl<T: Drop> From<AllocFailed<T>> for ProfileFault {
    ghost from_gives = { λ _ e. e ≡ OutOfMemory };

    fn from(_: AllocFailed<T>) -> ProfileFault {
        ProfileFault::OutOfMemory
    }
}
