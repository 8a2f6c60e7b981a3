use rr_base::{Bytes, Position};

/// A name that is a part of something, at its first byte.
#[derive(Debug, Drop)]
pub struct Name {
    pub text: Bytes,
    pub at: Position,
}
