//! Faults of types with their places, and the first of several.
ghost use Rattle.std.specs.Prelude.{◌≡◌};
ghost use Rattle.c_types.specs.Found as spec;

use rr_base::Position;
use thiserror::Error;

/// A rule that a source breaks.
#[derive(Clone, Copy, Debug, PartialEq, Eq, Error)]
pub enum FaultKind {
    #[error("nothing of this name is declared")]
    UnknownName,
    #[error("the name is declared twice")]
    DuplicateName,
    #[error("the type is another")]
    TypeMismatch,
    #[error("not a place")]
    NotPlace,
    #[error("the call has other arguments")]
    BadCall,
    #[error("a thread can't begin here")]
    BadRoot,
    #[error("there is no main")]
    NoMain,
    #[error("the object is too large")]
    ObjectTooLarge,
    #[error("too many places of memory")]
    TooManySites,
    #[error("the globals are too large")]
    GlobalsTooLarge,
    #[error("not a constant")]
    NotConstant,
    #[error("not in the language")]
    OutOfProfile,
}

impl FaultKind {
    /// The number by which faults at one place are ordered.
    pub fn number(self) -> u8
        ensures { result ≡ spec.number_of self }
    {
        match self {
            FaultKind::UnknownName => 9,
            FaultKind::DuplicateName => 10,
            FaultKind::TypeMismatch => 11,
            FaultKind::NotPlace => 12,
            FaultKind::BadCall => 13,
            FaultKind::BadRoot => 14,
            FaultKind::NoMain => 15,
            FaultKind::ObjectTooLarge => 16,
            FaultKind::TooManySites => 17,
            FaultKind::GlobalsTooLarge => 18,
            FaultKind::NotConstant => 19,
            FaultKind::OutOfProfile => 20,
        }
    }
}

/// A fault and its place.
#[derive(Clone, Copy, Debug, Error)]
#[error("{}:{}: {fault}", .at.line, .at.column)]
pub struct Found {
    pub fault: FaultKind,
    pub at: Position,
}

impl Found {
    /// Whether it comes before the other: earlier in the text, and at one place by the lower number.
    fn is_before(self, other: Found) -> bool
        ensures { result ≡ spec.is_before self other }
    {
        if self.at != other.at {
            return self.at < other.at;
        }
        self.fault.number() < other.fault.number()
    }
}

/// Keeps the fault where it comes before the first one that was found so far.
pub fn note(first: &mut Option<Found>, comes: bool, fault: FaultKind, at: Position)
    ensures { first.new ≡ spec.first_among first.old (spec.where_it_comes comes fault at) }
{
    if !comes {
        return;
    }
    let found = Found { fault, at };
    let is_first = match *first {
        None => true,
        Some(other) => found.is_before(other),
    };
    if is_first {
        *first = Some(found);
    }
}
