use crate::fault::Fault;
use crate::token::Kind;
use rr_base::{Bytes, Position};

/// Where reading of a source stands: how many bytes are before it, and its line and column.
#[derive(Clone, Copy)]
pub struct Cursor {
    pub offset: u32,
    pub at: Position,
}

/// A number as it is written: its value where that is below 2^63, and its length with its suffix.
#[derive(Clone, Copy)]
pub struct Literal {
    pub value: Option<u64>,
    pub len: usize,
}

/// What stands after the opening quote of a letter or text, or after such a unit.
#[derive(Clone, Copy)]
pub enum Unit {
    /// A byte or an escape: the byte that it means, and its length.
    Byte(u8, usize),
    /// The closing quote.
    Close,
    /// An escape that isn't one of the profile.
    BadEscape,
    /// What can't stand there.
    Open,
}

/// What stands after the opening quote of a text, as a whole.
#[derive(Drop)]
pub enum Body {
    /// The bytes that it means, and its length up to the closing quote.
    Closed(Bytes, usize),
    /// An escape that isn't one of the profile, so many bytes on.
    BadEscape(usize),
    /// No closing quote.
    Open,
}

/// Where the parts of a `#define` stand on its line: its name's bytes are those `from` to `to`, and its digits
/// begin at `digits`, right after `sign` if a `-` stands there.
#[derive(Clone, Copy)]
pub struct Parts {
    pub from: usize,
    pub to: usize,
    pub sign: usize,
    pub minus: bool,
    pub digits: usize,
}

/// What a source that isn't empty begins with.
#[derive(Drop)]
pub enum Piece {
    /// So many bytes that stand for a blank.
    Blank(usize),
    /// A token of so many bytes.
    Token(Kind, usize),
    /// A `#define` of `len` bytes, which gives a value to the name that stands at its bytes `from` to `to`.
    Define {
        from: usize,
        to: usize,
        value: i64,
        len: usize,
    },
    /// A fault so many bytes on.
    Fault(Fault, usize),
}
