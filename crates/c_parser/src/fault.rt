ghost use Rattle.std.specs.Prelude.{◌≡◌};

use rr_base::Position;
use thiserror::Error;

/// The first fault of the tokens of a source, with the place at which it stands.
#[derive(Clone, Copy, Debug, PartialEq, Eq, Error)]
pub enum ParseFault {
    /// No source has this token after those before it; or the tokens end here, and no source has just them (C99 6.5 to
    /// 6.9).
    #[error("{}:{}: no source has this here", .at.line, .at.column)]
    Syntax { at: Position },
    /// The token stands more than 256 levels deep (C99 5.2.4.1).
    #[error("{}:{}: more than 256 levels deep", .at.line, .at.column)]
    Nesting { at: Position },
    /// The token is a word of C that this profile refuses.
    #[error("{}:{}: not a word of the language", .at.line, .at.column)]
    OutOfProfile { at: Position },
    /// The machine has no memory left for the tree.
    #[error("out of memory")]
    OutOfMemory,
}

impl ParseFault {
    ghost use Rattle.c_parser.specs.Faults.{number_of, place_of};

    /// The number by which messages tell the fault; none for `OutOfMemory`.
    pub fn number(&self) -> Option<u8>
        ensures { result ≡ number_of self.now }
    {
        match self {
            ParseFault::Syntax { .. } => Some(7),
            ParseFault::Nesting { .. } => Some(8),
            ParseFault::OutOfProfile { .. } => Some(20),
            ParseFault::OutOfMemory => None,
        }
    }

    /// Where the fault stands; nowhere for `OutOfMemory`.
    pub fn place(&self) -> Option<Position>
        ensures { result ≡ place_of self.now }
    {
        match self {
            ParseFault::Syntax { at }
            | ParseFault::Nesting { at }
            | ParseFault::OutOfProfile { at } => Some(*at),
            ParseFault::OutOfMemory => None,
        }
    }
}
